//! News that reaches a kept branch.
ghost use Rattle.std.specs.Prelude.{◌≡◌, if◌then◌else◌};
ghost use Rattle.redo_record.specs.Kept.{stands_at};
ghost use Rattle.redo_record.specs.Lists.{change_where};
ghost use Rattle.redo_record.specs.News.{with_news};
ghost use Rattle.redo_record.specs.Order.{AreInOrder};

use crate::search::{place_of, start_of};
use crate::{Decision, KeptRow, State};
use tran_ids::BranchId;

/// News of a branch that stays kept.
#[derive(Clone, Copy, Debug)]
pub enum News {
    /// It commits, at this SCN.
    Commits(u64),
    /// An administrator ends it, in this state.
    IsForced(State),
    /// The decision reaches it after it was forced.
    Learns { decision: Decision, mixed: bool },
    /// It has no one left to tell.
    Forgets,
    /// A purge takes its row out of the view.
    IsHidden,
}

/// Tells a branch its news. A row that is found mixed is shown again.
fn tell(row: &mut KeptRow, news: News)
    ensures { row.new ≡ with_news news row.old }
{
    match news {
        News::Commits(scn) => {
            row.state = State::Committed;
            row.decision = Some(Decision::Commit(scn));
        }
        News::IsForced(state) => row.state = state,
        News::Learns { decision, mixed } => {
            row.decision = Some(decision);
            row.mixed = mixed;
            row.hidden = row.hidden && !mixed;
        }
        News::Forgets => row.forgot = true,
        News::IsHidden => row.hidden = true,
    }
}

fn tell_if_it_is(row: &mut KeptRow, me: &BranchId, news: News)
    ensures { row.new ≡ (if stands_at me.now row.old then with_news news row.old else row.old) }
{
    if row.me.is(me) {
        tell(row, news);
    }
}

/// Tells the branch of this id its news, where it is kept.
pub fn tell_branch(kept: &mut [KeptRow], me: &BranchId, news: News)
    requires { AreInOrder kept.old }
    ensures { kept.new ≡ change_where (stands_at me.now) (with_news news) kept.old }
{
    for place in start_of(kept, me)..place_of(kept, me) {
        tell_if_it_is(&mut kept[place], me, news);
    }
}
