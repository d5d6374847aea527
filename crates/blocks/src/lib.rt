// The most that a window of places offers to each place of a row, where what a place offers is lowered by a table of
// costs, read at the two places together. The table bends upwards but for a slack, so blocks of places share the work:
// of the places that all windows of a block take in, those above the last that is good for the block's first place, and
// those below the first that is good for its last place, are no better for any place of the block. How good is good is
// found near the places that were good for the block before. The definitions are those of specs/Sweeps, specs/Offers
// and specs/Cuts. Each function is called by crates of this repository, which keep what it asks for.
#![tactic(auto)]

ghost use Rattle.std.specs.Prelude.{◌≡◌, ◌+◌, ◌-◌, ◌≤◌, ◌<◌, min, length, pos, ◌-ℤ◌};
ghost use Rattle.machine.specs.Bounds.{most_energy};
ghost use Rattle.machine.specs.Lengths.{row_length};
ghost use Rattle.window.specs.Rows.{Written, cells, sloped, settled, Gentle, Roomy, Sized};
ghost use Rattle.blocks.specs.Offers.{slack, Bent, offered};
ghost use Rattle.blocks.specs.Sweeps.{Swept};
ghost use Rattle.blocks.specs.Cuts.{most_of, top_of, Offers, Under, parts_of, Enough, Topped};

use machine::ROW;
use quantities::HalfMills;
use window::Line;

// How many places a block has, and how many places further than the block before it looks for good ones.
const BLOCK: usize = 16;

// What the table may lack to bending upwards (specs/Offers): a place that is worse by as much is left out.
const SLACK: i64 = 2;

// What is offered to the first and to the last place of a block.
#[derive(Clone, Copy)]
struct Ends {
    first: HalfMills,
    last: HalfMills,
}

// What a block looks at: the places before `left` and from `right` on, and of the others those from `low` to before
// `high`.
#[derive(Clone, Copy)]
struct Cut {
    left: usize,
    low: usize,
    high: usize,
    right: usize,
}

// What places offer to one another: the n places of the row as it was, what they offer being lowered by the table of
// costs, which is read from `base` on. The window of a place reaches rd places down and ru up.
#[derive(Clone, Copy)]
struct Sources<'a> {
    old: &'a [i64],
    costs: &'a [i64],
    base: usize,
    n: usize,
    rd: usize,
    ru: usize,
    ghost long: { n ≤ length old.now },
    ghost roomy: { Roomy old.now n },
    ghost reach: { base + (n + n) ≤ most_energy + 2 },
    ghost bent: { Bent costs.now },
    ghost up_le: { ru ≤ row_length },
}

impl Sources<'_> {
    // What place q offers where the table is read from `at` on.
    #[tactic(auto, unfolding(crate::specs::Offers::offered))]
    fn offer(&self, at: usize, q: usize) -> HalfMills
        requires { (at < self.now.base + self.now.n) × (q < self.now.n) }
        ensures { result.0 ≡ offered self.now.old.now self.now.costs.now at q }
    {
        money::difference(
            money::value_at(self.old, q),
            money::value_at(self.costs, at + q),
        )
    }

    // The most that the places a to before b offer.
    fn most(&self, at: usize, a: usize, b: usize) -> HalfMills
        requires { (at < self.now.base + self.now.n) × (b ≤ self.now.n) }
        ensures { result.0 ≡ most_of self.now.old.now self.now.costs.now at a b }
    {
        let mut top = money::none();
        for q in a..b {
            top = top.max(self.offer(at, q));
        }
        top
    }

    // The most that the places a to before b offer, for two places of the table.
    fn ends_of(&self, l: usize, r: usize, a: usize, b: usize) -> Ends
        requires { (l ≤ r) × (r < self.now.base + self.now.n) × (a < b) × (b ≤ self.now.n) }
        ensures offers { Offers self.now.old.now self.now.costs.now l a b result.first.0 }
        ensures offers_2 { Offers self.now.old.now self.now.costs.now r a b result.last.0 }
    {
        let mut first = self.offer(l, a);
        let mut last = self.offer(r, a);
        for q in a + 1..b {
            first = first.max(self.offer(l, q));
            last = last.max(self.offer(r, q));
        }
        Ends { first, last }
    }

    // The most that those of the places a to before b offer that are near what an earlier cut looks at.
    fn ends_near(&self, l: usize, r: usize, a: usize, b: usize, earlier: Cut) -> Ends
        requires { (l ≤ r) × (r < self.now.base + self.now.n) × (a < b) × (b ≤ self.now.n)
            × (earlier.high ≤ self.now.n) }
        ensures offers { Offers self.now.old.now self.now.costs.now l a b result.first.0 }
        ensures offers_2 { Offers self.now.old.now self.now.costs.now r a b result.last.0 }
    {
        let from = a.max(earlier.low.saturating_sub(BLOCK).min(b - 1));
        let to = (from + 1).max((earlier.high + BLOCK).min(b));
        self.ends_of(l, r, from, to)
    }

    // The first of the places a to before b that offers more than `top` less the slack. `highest` goes the other way
    // and promises the other end, so the two stay apart: one for both would take the order and the end as parameters.
    fn lowest(&self, at: usize, a: usize, b: usize, top: HalfMills) -> usize
        requires within { (at < self.now.base + self.now.n) × (b ≤ self.now.n) }
        requires offers { Offers self.now.old.now self.now.costs.now at a b top.0 }
        ensures { (a ≤ result) × (result ≤ b)
            × Under self.now.old.now self.now.costs.now at a result (top.0 -ℤ pos slack) }
    {
        let mark = money::difference(top, HalfMills(SLACK));
        for q in a..b {
            if mark < self.offer(at, q) {
                return q;
            }
        }
        b
    }

    // One more than the last of the places a to before b that offers more than `top` less the slack.
    fn highest(&self, at: usize, a: usize, b: usize, top: HalfMills) -> usize
        requires within { (at < self.now.base + self.now.n) × (b ≤ self.now.n) }
        requires offers { Offers self.now.old.now self.now.costs.now at a b top.0 }
        ensures { (a ≤ result) × (result ≤ b)
            × Under self.now.old.now self.now.costs.now at result b (top.0 -ℤ pos slack) }
    {
        let mark = money::difference(top, HalfMills(SLACK));
        for q in (a..b).rev() {
            if mark < self.offer(at, q) {
                return q + 1;
            }
        }
        a
    }

    // What the block of places s to r looks at: all of each window where the windows have no place in common. An
    // earlier cut tells where good places may be.
    fn cut_of(&self, s: usize, r: usize, earlier: Cut) -> Cut
        requires { (s ≤ r) × (r < self.now.n) × (earlier.high ≤ self.now.n) }
        ensures { Enough self.now.old.now self.now.costs.now self.now.base self.now.n self.now.rd self.now.ru s r
            result.left result.low result.high result.right }
    {
        let left = r.saturating_sub(self.rd);
        let right = (s + self.ru + 1).min(self.n);
        if right <= left {
            let n = self.n;
            return Cut {
                left: n,
                low: n,
                high: n,
                right: n,
            };
        }
        let e = self.ends_near(self.base + s, self.base + r, left, right, earlier);
        let low = self.lowest(self.base + r, left, right, e.last);
        let high = self.highest(self.base + s, left, right, e.first);
        Cut {
            left,
            low,
            high,
            right,
        }
    }

    // The most that the window of place p offers to it, of which a cut leaves some out.
    fn top_at(&self, p: usize, k: Cut) -> HalfMills
        requires { (p < self.now.n) × (k.high ≤ self.now.n) }
        ensures { result.0 ≡ parts_of self.now.old.now self.now.costs.now (self.now.base + p)
            (p - self.now.rd) (min (p + self.now.ru + 1) self.now.n) k.left k.low k.high k.right }
    {
        let at = self.base + p;
        let a = p.saturating_sub(self.rd);
        let b = (p + self.ru + 1).min(self.n);
        let before = self.most(at, a, k.left.min(b));
        let among = self.most(at, k.low, k.high);
        let after = self.most(at, k.right, b);
        before.max(among).max(after)
    }

    // The places s to before e of the row get the most that is offered to them, by the places that a cut looks at.
    fn block(&self, row: &mut [i64], s: usize, e: usize, k: Cut)
        requires s_lt_e { (s < e) × (e ≤ self.now.n) × (self.now.n ≤ length row.old) }
        requires enough { Enough self.now.old.now self.now.costs.now self.now.base self.now.n self.now.rd self.now.ru
            s (e - 1) k.left k.low k.high k.right }
        ensures { Written row.old row.new s e
            (top_of self.now.old.now self.now.costs.now self.now.base self.now.n self.now.rd self.now.ru) }
    {
        for p in s..e {
            money::store(row, p, self.top_at(p, k));
        }
    }

    // Each place of the row gets the most that is offered to it, block by block.
    fn fill(&self, row: &mut [i64])
        requires { self.now.n ≤ length row.old }
        ensures { Written row.old row.new 0 self.now.n
            (top_of self.now.old.now self.now.costs.now self.now.base self.now.n self.now.rd self.now.ru) }
    {
        let n = self.n;
        let mut k = Cut {
            left: 0,
            low: 0,
            high: n,
            right: n,
        };
        for s in (0..n).step_by(BLOCK) {
            let e = (s + BLOCK).min(n);
            k = self.cut_of(s, e - 1, k);
            self.block(row, s, e, k);
        }
    }
}

// Each of the first n numbers is settled with the line; window's `lift` says why the two loops are not one.
fn settle_row(row: &mut [i64], n: usize, line: Line)
    requires n_in_bounds { (n ≤ length row.old) × (n ≤ row_length) × (Topped row.old n) }
    requires gentle { Gentle line.first.0 line.slope.0 }
    ensures { Written row.old row.new 0 n
        (λ k. settled (sloped line.first.0 line.slope.0 k) (cells row.old k)) }
{
    let mut amount = line.first;
    for i in 0..n {
        let v = money::value_at(row, i);
        money::store(row, i, window::settle(amount, v));
        amount = line.after(amount);
    }
}

// Each place of the row becomes the most that its window offers to it, with the line added.
pub fn sweep(
    row: &mut [i64; ROW],
    costs: &[i64],
    base: usize,
    n: usize,
    rd: usize,
    ru: usize,
    line: Line,
)
    requires sized { Sized row.old n rd ru line.first.0 line.slope.0 }
    requires bent { (Bent costs.now) × (base + (n + n) ≤ most_energy + 2) }
    ensures { Swept row.old row.new costs.now base n rd ru line.first.0
        line.slope.0 }
{
    let old = *row;
    let sources = Sources {
        old: &old,
        costs,
        base,
        n,
        rd,
        ru,
    };
    sources.fill(row);
    settle_row(row, n, line);
}
