// Whether the order of a list of gets matters for a unit.
ghost use Rattle.std.specs.Prelude.{◌≡◌};
ghost use Rattle.model.specs.Program.{pieces};
ghost use Rattle.unit.specs.Rows.{state_in};
ghost use Rattle.start_order.specs.Answers.{start_order};
ghost use Rattle.journaled.specs.Units.{rows_of};
ghost use Rattle.numbers.specs.Orders.{order_number};

use journaled::Unit;
use numbers::order_number;
use start_order::start_order;

// Whether the order of a row of gets matters, as one number.
#[unsafe(no_mangle)]
pub extern "C" fn circmon_clash(unit: &Unit, requests: &[u8]) -> u64
    ensures { result ≡ order_number (start_order (pieces requests.now) (state_in (rows_of unit.now))) }
{
    let found = start_order(unit.monitor(), requests);
    order_number(found)
}
