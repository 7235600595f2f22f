//! Which points are reached at which places.
ghost use Rattle.std.specs.Prelude.{◌≡◌};
ghost use Rattle.crash_points.specs.Points.{number_at as number_at_of, reached as reached_of};

use crate::TurnPlace;

/// Whether a branch reaches the point of this number, 1 to 10, at this place of its turn: at the commit point site 1
/// (collected), 5 (before the decision), 6 (after it) and 9 (before it forgets); at another branch 2 (collected), 3
/// (before it is sealed), 4 (after that), 7 (before it ends), 8 (after that) and 10 (before it forgets).
pub fn reached(point: u8, at_site: bool, place: TurnPlace) -> bool
    ensures { result ≡ reached_of point at_site place }
{
    match number_at(at_site, place) {
        None => false,
        Some(number) => point == number,
    }
}

fn number_at(at_site: bool, place: TurnPlace) -> Option<u8>
    ensures { result ≡ number_at_of at_site place }
{
    match (at_site, place) {
        (true, TurnPlace::Collected) => Some(1),
        (false, TurnPlace::Collected) => Some(2),
        (false, TurnPlace::BeforeSealed) => Some(3),
        (false, TurnPlace::AfterSealed) => Some(4),
        (true, TurnPlace::BeforeDecided) => Some(5),
        (true, TurnPlace::AfterDecided) => Some(6),
        (false, TurnPlace::BeforeEnded) => Some(7),
        (false, TurnPlace::AfterEnded) => Some(8),
        (true, TurnPlace::BeforeForgot) => Some(9),
        (false, TurnPlace::BeforeForgot) => Some(10),
        _ => None,
    }
}
