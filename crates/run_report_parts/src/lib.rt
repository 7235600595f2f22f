//! The parts of what is told of a run: pending calls and how they end, the orders on the nodes' disks, the points of
//! crash-test comments, and the lines of the command that runs.
//!
//! Nothing here knows a node or a message. The definitions of run_rules say what a part is and how it changes; each call
//! gives exactly that. What allocates fails where memory runs out, and for no other reason.
#![tactic(auto)]

mod call;
mod calls;
mod ending;
mod order;
mod orders;
mod page;
mod point;
mod says;

pub use call::Call;
pub use calls::{CallKey, call_at, change_calls, drop_call, is_running, keys_at};
pub use ending::{Ending, ending_of};
pub use node_points::{Point, Side, reaches};
pub use order::{DiskOrders, StopOrder, Strike, opens_gate};
pub use orders::{orders_at, set_orders};
pub use page::CommandOutput;
pub use point::{reach_all, reached_of};
pub use says::{down, node_stopped, over, point_reached};
