// The Newick copy of a state file's tree: the tree is read into local arrays and accepted there, and its text, or that of the refusal, is put into a lent
// slice. Nothing else is written. `copy` has no `requires`. Assumes nothing.
#![tactic(auto)]

ghost use Rattle.std.specs.Prelude.{◌≡◌, length};
ghost use Rattle.tree.specs.Given.{tree_of};
ghost use Rattle.tree.specs.Tree.{nodes_of};
ghost use Rattle.tree.specs.New.{new_tree, Accepted};
ghost use Rattle.statefile.specs.StateFile.{state_file};
ghost use Rattle.report.specs.Report.{delivery, delivered};
ghost use Rattle.copying.specs.Copying.{copy_text, tree_copy, read_copy, file_copy};
ghost use Rattle.copying.specs.Given.{handed};

use answer::Refusal;
use newick::CopyError;
use tree::Tree;

// The nodes of the largest tree.
const MOST_NODES: usize = 4095;

// How long the copy is that the writer has put into the slice: 0 where the slice is too short for it, which is the writer's refusal 10. The text of another
// refusal is put there, as nothing was written.
#[tactic(auto, using(crate::proofs::TreeLaws::told_laws))]
fn conclude(copied: Result<usize, CopyError>, out: &mut [u8]) -> usize
    ensures { delivery result out.new ≡ handed copied out.old }
{
    match copied {
        Ok(count) => count,
        Err(CopyError::Refused(why)) => report::put_refusal(out, why),
        Err(CopyError::Room) => 0,
    }
}

// The copy of a tree that was accepted.
fn copy_accepted(tree: &Tree<'_>, out: &mut [u8]) -> usize
    requires { Accepted tree.now }
    ensures { delivery result out.new ≡ delivered out.old (copy_text tree.now) }
{
    let copied = newick_write::write(tree, out);
    conclude(copied, out)
}

// The copy of the tree that the pairs and heights make, or why they make none; the parents are found.
#[tactic(auto, using(crate::proofs::TreeLaws::tree_laws))]
fn copy_tree(pairs: &[u16], heights: &[f64], parents: &mut [u16], out: &mut [u8]) -> usize
    requires { length parents.old ≡ nodes_of pairs.now }
    ensures { delivery result out.new ≡ delivered out.old (tree_copy (new_tree pairs.now heights.now)) }
{
    match tree::new(pairs, heights, parents) {
        Ok(root) => {
            let tree = Tree {
                pairs,
                parents: &*parents,
                heights,
                root,
            };
            copy_accepted(&tree, out)
        }
        Err(why) => report::put_refusal(out, why),
    }
}

// The copy of a file that is not too long.
fn copy_file(file: &[u8], out: &mut [u8]) -> usize
    ensures { delivery result out.new ≡ delivered out.old (read_copy (state_file file.now)) }
{
    let mut pairs = [0; 2 * MOST_NODES];
    let mut parents = [0; MOST_NODES];
    let mut heights = [0.0; MOST_NODES];
    match statefile::read_state(file, &mut pairs, &mut heights) {
        Ok(head) => {
            let n = statefile::node_count(head.tips);
            if MOST_NODES < n {
                return report::put_refusal(out, Refusal::Size(n));
            }
            copy_tree(&pairs[..n + n], &heights[..n], &mut parents[..n], out)
        }
        Err(wrong) => report::put_refusal(out, Refusal::Line(wrong.0)),
    }
}

// The copy of a state file of at most so many bytes, at the start of `out`, and how long it is; 0, with nothing written, where `out` is too short.
#[tactic(auto, using(crate::proofs::FileLaws::file_laws))]
pub fn copy(file: &[u8], limit: usize, out: &mut [u8]) -> usize
    ensures { delivery result out.new ≡ delivered out.old (file_copy limit file.now) }
{
    if limit < file.len() {
        report::put_refusal(out, Refusal::Line(0))
    } else {
        copy_file(file, out)
    }
}
