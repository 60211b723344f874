//! The departures or the arrivals of a board alone.

ghost use Rattle.std.specs.Prelude.{◌≡◌, filter};
ghost use Rattle.ssim_board.specs.Kinds.{is_of_kind, of_kind};

use crate::movement::{Movement, MovementKind};

/// The movements, or those of one kind alone if one is named, in their order.
pub fn of_kind(mut movements: Vec<Movement>, kind: Option<MovementKind>) -> Vec<Movement>
    ensures { result.items ≡ of_kind kind movements.items }
{
    if let Some(kind) = kind {
        keep_kind(&mut movements, kind);
    }
    movements
}

// Keeps the movements of a kind alone.
fn keep_kind(movements: &mut Vec<Movement>, kind: MovementKind)
    ensures { movements.new.items ≡ filter (is_of_kind kind) movements.old.items }
{
    movements.retain(|movement| is_of_kind(kind, movement));
}

// Whether a movement is of this kind.
fn is_of_kind(kind: MovementKind, movement: &Movement) -> bool
    ensures { result ≡ is_of_kind kind movement.now }
{
    match (kind, movement.kind) {
        (MovementKind::Departure, MovementKind::Departure) => true,
        (MovementKind::Arrival, MovementKind::Arrival) => true,
        _ => false,
    }
}
