// The reader's second pass over the bytes of a Newick text, as Filing has it: a digit first, and then the signs, and no slice is written past its end. The first pass
// has judged the spelling by then; here any bytes will do. Assumes nothing.
#![tactic(auto)]

ghost use Rattle.std.specs.Prelude.{◌≡◌, suc, ◌+◌, ◌*◌, min, length, set};
ghost use Rattle.newick_file.specs.Filing.{most, short, after_digit, after_point, after_tip, after_close, after_other, filing, pairs_closed, ups_ended};
ghost use Rattle.newick_file.specs.Filing.{file_sign, file_byte, file, begun, blank, closes};
ghost use Rattle.newick_file.specs.Passes.{Built};

// The mark for no node, where numbers of nodes stay.
const NO_NODE: usize = 65535;

// Lengths stay at the first root age that is refused.
const MOST: u64 = 9_007_199_254_740_992;

// Where the pass stands: how many nodes wait, the number of the next parenthesis to close, the number being read, whether the byte before closed one.
#[derive(Clone, Copy)]
struct Filer {
    height: usize,
    next: usize,
    value: u64,
    closed: bool,
}

// ---- numbers

// The number of a node, or the mark for none.
fn narrow(x: usize) -> u16
    ensures { result ≡ short x }
{
    x.min(NO_NODE) as u16
}

// The next number, which stays at the mark.
fn raise(x: usize) -> usize
    ensures { result ≡ short (suc x) }
{
    x.min(NO_NODE - 1) + 1
}

// A number with one digit more.
fn longer(v: u64, d: u8) -> u64
    ensures { result ≡ min (v * 10 + d) most }
{
    (v.min(MOST / 10 + 1) * 10 + u64::from(d)).min(MOST)
}

// ---- lists

// Stores at a place that the list has, and else nothing.
#[tactic(auto, using(crate::proofs::StoreLaws::store_laws))]
pub fn put<T: Copy>(l: &mut [T], k: usize, x: T)
    ensures { l.new ≡ set l.old k x }
{
    if k < l.len() {
        l[k] = x;
    }
}

// The next two by halves of the list, since a sum k + k may not fit.
#[tactic(auto, using(crate::proofs::StoreLaws::store_laws))]
fn put_first(l: &mut [u16], k: usize, x: u16)
    ensures { l.new ≡ set l.old (k + k) x }
{
    if k < l.len() - l.len() / 2 {
        l[k + k] = x;
    }
}

#[tactic(auto, using(crate::proofs::StoreLaws::store_laws))]
fn put_second(l: &mut [u16], k: usize, x: u16)
    ensures { l.new ≡ set l.old (suc (k + k)) x }
{
    if k < l.len() / 2 {
        l[k + k + 1] = x;
    }
}

// ---- a byte

#[tactic(auto, using(crate::proofs::ByteLaws::after_laws))]
fn after_digit(q: Filer, d: u8) -> Filer
    ensures { result ≡ after_digit d q }
{
    Filer {
        value: longer(q.value, d),
        closed: false,
        ..q
    }
}

fn after_point(q: Filer) -> Filer
    ensures { result ≡ after_point q }
{
    Filer { closed: false, ..q }
}

// A tip is at its end, and waits.
#[tactic(auto, using(crate::proofs::ByteLaws::after_laws))]
fn after_tip(q: Filer) -> Filer
    ensures { result ≡ after_tip q }
{
    Filer {
        height: raise(q.height),
        value: 0,
        closed: false,
        ..q
    }
}

// Of the two nodes that wait last and their parent only the parent waits on.
#[tactic(auto, using(crate::proofs::ByteLaws::after_laws))]
fn after_close(q: Filer) -> Filer
    ensures { result ≡ after_close q }
{
    Filer {
        height: q.height.saturating_sub(1),
        next: raise(q.next),
        value: 0,
        closed: true,
    }
}

fn after_other(q: Filer) -> Filer
    ensures { result ≡ after_other q }
{
    Filer {
        value: 0,
        closed: false,
        ..q
    }
}

// The two nodes that wait last are the children of node n.
#[tactic(auto, using(crate::proofs::ByteLaws::put_laws))]
fn put_children(h: usize, n: usize, stack: &[u16], pairs: &mut [u16])
    ensures { pairs.new ≡ pairs_closed h n stack.now pairs.old }
{
    let a = stack.get(h.saturating_sub(2)).copied().unwrap_or(0);
    let b = stack.get(h.saturating_sub(1)).copied().unwrap_or(0);
    put_first(pairs, n, a);
    put_second(pairs, n, b);
}

// The length of the branch above the node that waits last.
#[tactic(auto, using(crate::proofs::ByteLaws::put_laws))]
fn put_length(h: usize, v: u64, stack: &[u16], ups: &mut [u64])
    ensures { ups.new ≡ ups_ended h v stack.now ups.old }
{
    let k = stack.get(h.saturating_sub(1)).copied().unwrap_or(0);
    put(ups, k as usize, v);
}

// A byte that is no digit.
#[tactic(auto, using(crate::proofs::ByteLaws::sign_laws))]
fn file_sign(
    b: u8,
    q: Filer,
    pairs: &mut [u16],
    ups: &mut [u64],
    stack: &mut [u16],
    seen: &mut [bool],
) -> Filer
    ensures { filing pairs.new ups.new stack.new seen.new result ≡ file_sign (filing pairs.old ups.old stack.old seen.old q) b }
{
    match b {
        b'.' => after_point(q),
        b':' if q.closed => after_other(q),
        b':' => {
            let k = narrow(q.value as usize);
            put(stack, q.height, k);
            put(seen, k as usize, true);
            after_tip(q)
        }
        b',' => {
            put_length(q.height, q.value, stack, ups);
            after_other(q)
        }
        b')' => {
            put_length(q.height, q.value, stack, ups);
            put_children(q.height, q.next, stack, pairs);
            put(stack, q.height.saturating_sub(2), narrow(q.next));
            after_close(q)
        }
        _ => after_other(q),
    }
}

#[tactic(auto, using(crate::proofs::ByteLaws::byte_laws))]
fn file_byte(
    b: u8,
    q: Filer,
    pairs: &mut [u16],
    ups: &mut [u64],
    stack: &mut [u16],
    seen: &mut [bool],
) -> Filer
    ensures { filing pairs.new ups.new stack.new seen.new result ≡ file_byte (filing pairs.old ups.old stack.old seen.old q) b }
{
    if text::is_decimal(b) {
        after_digit(q, b - b'0')
    } else {
        file_sign(b, q, pairs, ups, stack, seen)
    }
}

// ---- a text

#[tactic(auto, using(crate::proofs::PassLaws::pass_laws))]
fn file_all(
    text: &[u8],
    tips: usize,
    pairs: &mut [u16],
    ups: &mut [u64],
    stack: &mut [u16],
    seen: &mut [bool],
)
    ensures { Built pairs.new ups.new seen.new (file (begun tips pairs.old ups.old stack.old seen.old) text.now) }
{
    let mut q = Filer {
        height: 0,
        next: tips,
        value: 0,
        closed: false,
    };
    for b in text {
        q = file_byte(*b, q, pairs, ups, stack, seen);
    }
}

// The pairs, the lengths and the tips of a text with so many tips, whatever the slices held; the stack serves for the pass alone.
#[tactic(auto, using(crate::proofs::PassLaws::pass_laws))]
pub fn build(
    text: &[u8],
    tips: usize,
    pairs: &mut [u16],
    ups: &mut [u64],
    stack: &mut [u16],
    seen: &mut [bool],
)
    ensures { Built pairs.new ups.new seen.new (file (blank tips (length pairs.old) (length ups.old) stack.old (length seen.old)) text.now) }
{
    pairs.fill(NO_NODE as u16);
    ups.fill(0);
    seen.fill(false);
    file_all(text, tips, pairs, ups, stack, seen);
}

// How many parentheses close.
pub fn count(text: &[u8]) -> usize
    ensures { result ≡ closes text.now }
{
    // By a loop: `filter` and `count` were tried, and are slower.
    let mut n: usize = 0;
    for b in text {
        n += usize::from(*b == b')');
    }
    n
}
