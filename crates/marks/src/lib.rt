// Sets of tips as a host has them: a byte for each tip, not 0 where it is in the set. The calls of crate clades on such a set. Assumes nothing.
#![tactic(auto)]

ghost use Rattle.std.specs.Prelude.{◌≡◌, length};
ghost use Rattle.clades.specs.Clades.{monophyly_call, age_call};
ghost use Rattle.marks.specs.Marks.{marks_of};

use answer::Refusal;
use tree::{MOST_NODES, Tree};

// The most tips of a tree.
const MOST_TIPS: usize = (MOST_NODES + 1) / 2;

// Each byte becomes a mark.
#[tactic(auto, unfolding(crate::specs::Marks::marks_of))]
fn put_marks(members: &[u8], marks: &mut [bool])
    requires { length marks.old ≡ length members.now }
    ensures { marks.new ≡ marks_of members.now }
{
    for (tip, member) in members.iter().enumerate() {
        marks[tip] = *member != 0;
    }
}

// Whether some node of a tree has exactly the tips of the set below it. More bytes than a tree has tips are not one for each.
#[tactic(auto, using(crate::proofs::MarkLaws::call_laws))]
pub fn is_monophyletic(tree: &Tree<'_>, members: &[u8]) -> Result<bool, Refusal>
    ensures { result ≡ monophyly_call tree.now (marks_of members.now) }
{
    if MOST_TIPS < members.len() {
        return Err(Refusal::Size(tree.pairs.len() / 2));
    }
    let mut places = [false; MOST_TIPS];
    let marks = &mut places[..members.len()];
    put_marks(members, marks);
    clades::is_monophyletic_in(tree, marks)
}

// The age of the first node in postorder over all tips of the set.
#[tactic(auto, using(crate::proofs::MarkLaws::call_laws))]
pub fn clade_age(tree: &Tree<'_>, members: &[u8]) -> Result<u64, Refusal>
    ensures { result ≡ age_call tree.now (marks_of members.now) }
{
    if MOST_TIPS < members.len() {
        return Err(Refusal::Size(tree.pairs.len() / 2));
    }
    let mut places = [false; MOST_TIPS];
    let marks = &mut places[..members.len()];
    put_marks(members, marks);
    clades::clade_age(tree, marks)
}
