//! Movements by time.

ghost use Rattle.std.specs.Prelude.{◌≡◌, ◌≤◌, IfOk};
ghost use Rattle.std.specs.List.{All};
ghost use Rattle.ssim_board.specs.InOrder.{by_time};

use crate::movement::Movement;
use ssim_values::Memory;

/// The same movements by time, departures first. Those of one minute and kind keep their order.
pub(crate) fn in_order(mut movements: Vec<Movement>) -> Result<Vec<Movement>, Memory>
    requires { All (λ movement. movement.time.minutes ≤ 1440) movements.items }
    ensures { IfOk result (λ sorted. sorted.items ≡ by_time movements.items) }
{
    movements.sort_by_key(|movement| movement.rank())?;
    Ok(movements)
}
