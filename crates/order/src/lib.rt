// Every node of a tree with both children before their parent, in a lent slice: `postorder_into` of rove's tree.rs. It is filled from its end;
// its first places hold the nodes that wait, so that neither a stack nor a second array is needed. Assumes nothing.
#![tactic(auto)]

ghost use Rattle.std.specs.Prelude.{◌≡◌, length};
ghost use Rattle.tree.specs.Tree.{subtree};
ghost use Rattle.order.specs.Postorder.{postorder_given, postorder_call};
ghost use Rattle.order.specs.Filling.{waiting, visited, Visits, Fills};

use answer::Refusal;
use tree::Tree;

// Places the last of the nodes that wait at `at`, and lets its children wait in its stead; how many wait then.
#[tactic(auto, using(tree::specs::PlaceLaws::wide16, crate::proofs::FillLaws::visit_laws))]
fn visit(pairs: &[u16], order: &mut [u16], last: usize, at: usize) -> usize
    requires { Visits pairs.now order.old last at }
    ensures { waiting result order.new ≡ visited pairs.now order.old last at }
{
    let n = order.len();
    let node = order[last] as usize;
    order[at] = order[last];
    if n < node + node {
        order[last] = pairs[node + node];
        order[last + 1] = pairs[node + node + 1];
        last + 2
    } else {
        last
    }
}

// The postorder of a valid tree with as many nodes as the slice has places.
#[tactic(auto, using(crate::proofs::FillLaws::fill_laws))]
pub fn fill(pairs: &[u16], root: usize, order: &mut [u16])
    requires { Fills pairs.now root (length order.old) }
    ensures { order.new ≡ subtree (length order.old) (length order.old) pairs.now root }
{
    order[0] = root as u16;
    let mut count = 1;
    let mut at = order.len();
    while 0 < count {
        at -= 1;
        count = visit(pairs, order, count - 1, at);
    }
}

// The postorder of a tree, or why the tree or the slice is refused, which then stays as it is.
#[tactic(auto, using(crate::proofs::FillLaws::postorder_laws))]
pub fn postorder(tree: &Tree<'_>, order: &mut [u16]) -> Result<(), Refusal>
    ensures { postorder_given result order.new ≡ postorder_call tree.now order.old }
{
    let n = tree.pairs.len() / 2;
    if order.len() != n {
        return Err(Refusal::Size(n));
    }
    quick::validate(tree)?;
    fill(tree.pairs, tree.root, order);
    Ok(())
}
