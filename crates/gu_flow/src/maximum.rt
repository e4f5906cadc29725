//! Maximum flows from the source to the sink.

ghost use Rattle.std.specs.Prelude.{◌≡◌, ◌≤◌, false, OnOk, length};
ghost use Rattle.gu_flow.specs.Ends.{residual_out};
ghost use Rattle.gu_flow.specs.LeastCuts.{IsLeastSide};
ghost use Rattle.gu_flow.specs.Rounds.{IsFree};
ghost use Rattle.gu_flow.specs.Searches.{is_reached, IsReady, IsSourceSearch};

use crate::allotment::Allotment;
use crate::heights::surge;
use crate::network::{Network, SINK, SOURCE};
use crate::searching::Search;
use crate::ways::block;
use std::alloc::{AllocError, Global};

/// The searches allowed at first. Each costs a step a node, and paths pay for more. Once less than a quarter of one is left, the rest is
/// pushed all at once: searches then find little or paths grow long, and there would be many more.
const SEARCHES: usize = 2;

/// Searches from the source until it reaches the sink or has no ends left. Returns whether it reaches the sink.
fn seek(net: &Network, allotment: &Allotment, search: &mut Search) -> bool
    requires free { IsFree net.now.arcs.items (length net.now.first.items) allotment.now }
    requires ready { IsReady (length net.now.first.items) search.old }
    ensures search { IsSourceSearch net.now.arcs.items (length net.now.first.items)
        (residual_out net.now.arcs.items allotment.now.flow.items) search.new }
    ensures found { result ≡ is_reached search.new.marks.items 1 }
    ensures out { result ≡ false → search.new.count ≤ search.new.done }
{
    search.begin(net, SOURCE, u64::MAX);
    'looks: while search.done < search.count {
        if search.look(net, allotment) == Some(SINK) {
            return true;
        }
    }
    search.has(SINK)
}

/// Makes the flow maximum. What the last search from the source has reached is then the least source side.
pub(crate) fn maximize(
    alloc: Global,
    net: &Network,
    allotment: &mut Allotment,
    search: &mut Search,
) -> Result<(), AllocError>
    requires free { IsFree net.now.arcs.items (length net.now.first.items) allotment.old }
    requires ready { IsReady (length net.now.first.items) search.old }
    ensures free { OnOk result (IsFree net.now.arcs.items (length net.now.first.items) allotment.new) }
    ensures search { OnOk result (IsSourceSearch net.now.arcs.items (length net.now.first.items)
        (residual_out net.now.arcs.items allotment.new.flow.items) search.new) }
    ensures least { OnOk result (IsLeastSide net.now.arcs.items allotment.new.flow.items (is_reached search.new.marks.items)) }
{
    let nodes = net.last_ends().len();
    let mut current = vec![in alloc; 0; nodes]?;
    let mut way = vec![in alloc; 0; nodes]?;
    let mut left = SEARCHES * nodes;
    'searches: while seek(net, allotment, search) {
        current.copy_from_slice(net.last_ends());
        left = block(
            net,
            &mut allotment.flow,
            &search.marks,
            &mut current,
            &mut way,
            left,
        )
        .saturating_sub(nodes);
        search.clear();
        if left < nodes / 4 {
            surge(alloc, net, &mut allotment.flow, &mut current, &mut way)?;
            left = SEARCHES * nodes;
        }
        allotment.measure_all(net);
    }
    Ok(())
}
