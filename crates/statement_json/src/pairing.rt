//! What was read beside what is read next.

ghost use Rattle.std.specs.Prelude.{◌≡◌};
ghost use Rattle.std.specs.Result.{result_map_both};

/// A value beside another, where that was read; otherwise its fault. The value is of any type, so that where the other
/// wasn't read it is let go in one step, and not by each of its parts (this project's own).
pub fn beside<T: Drop, U: Drop, F: Drop>(one: T, other: Result<U, F>) -> Result<(T, U), F>
    ensures { result ≡ result_map_both (λ other. (one, other)) (λ fault. fault) other }
{
    match other {
        Ok(other) => Ok((one, other)),
        Err(fault) => Err(fault),
    }
}
