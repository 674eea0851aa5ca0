// Merging groups of one kind: the best of their names, and the items that take it.
ghost use Rattle.std.specs.Prelude.{◌≡◌, ◌-◌, ◌<◌, ◌≤◌};
ghost use Rattle.table.specs.Inside.Column;
ghost use Rattle.table.specs.Inside.Merge.{better_name, best_listed, widened, given_in, given_from, absorb_table, absorb_pass, absorb_listed};
ghost use Rattle.table.specs.Inside.Merge.{rename_table, rename_count, rename_pass, extended, merge_listed};

use crate::words::{Area, CHANGED, NAME, RANGE, SIZE, Table};

// Items written down in a column, one to a word.
#[derive(Clone, Copy)]
pub struct Listing {
    pub area: Area,
    pub column: u8,
    pub count: u32,
}

// The items from `from` up to and not including `to`.
#[derive(Clone, Copy)]
pub struct Pass {
    pub from: u32,
    pub to: u32,
}

// What merging gives: the name of the new group, and how many items changed their name.
#[derive(Clone, Copy)]
pub struct Merged {
    pub name: u32,
    pub changed: u32,
}

// The pass widened to a range of items, which is kept in one word.
#[tactic(auto, unfolding(crate::specs::Inside::Merge::widened, crate::specs::Inside::Merge::least_of, crate::specs::Inside::Merge::greatest_of))]
fn widen(p: Pass, range: u32) -> Pass
    ensures { result ≡ widened p range }
{
    Pass {
        from: p.from.min(range / 65536),
        to: p.to.max(range % 65536 + 1),
    }
}

impl Table<'_> {
    ghost use Rattle.table.specs.Same.{IsSame};

    // The name of the larger group; among equals, the least name.
    #[tactic(auto, unfolding(crate::specs::Inside::Merge::better_name))]
    fn better(&self, area: Area, w: u32, x: u32) -> u32
        ensures { result ≡ better_name self.now.words.now area w x }
    {
        let mine = self.word(area, SIZE, w);
        let other = self.word(area, SIZE, x);
        if other < mine {
            return w;
        }
        if mine < other {
            return x;
        }
        w.min(x)
    }

    // The best of the names of the listed items.
    #[tactic(auto, unfolding(crate::specs::Inside::Merge::best_listed), using(crate::proofs::MergeSteps::best_step, crate::proofs::MergeSteps::best_end))]
    fn best(&self, area: Area, l: Listing) -> u32
        ensures { result ≡ best_listed self.now.words.now area l }
    {
        let first = self.word(l.area, l.column, 0);
        let mut w = self.word(area, NAME, first);
        for i in 1..l.count {
            let x = self.word(l.area, l.column, i);
            let name = self.word(area, NAME, x);
            w = self.better(area, w, name);
        }
        w
    }

    // The group gives what it has in a column to the winner, and keeps 0.
    #[tactic(auto, unfolding(crate::specs::Inside::Merge::given_in))]
    fn give(&mut self, area: Area, column: u8, w: u32, name: u32)
        ensures words { self.new.words.now ≡ given_in self.old.words.now area column w name }
        ensures same { IsSame self.old self.new }
    {
        let had = self.word(area, column, w);
        let gained = self.word(area, column, name);
        let both = had.wrapping_add(gained);
        self.set_word(area, column, w, both);
        self.set_word(area, column, name, 0);
    }

    // The group gives its size, and what the columns behind the size have, to the winner.
    #[tactic(auto, using(crate::proofs::MergeSteps::give_step, crate::proofs::MergeSteps::give_end))]
    fn give_all(&mut self, area: Area, w: u32, name: u32)
        ensures words { self.new.words.now ≡ given_from self.old.words.now area w name Column.size (area.columns - Column.size) }
        ensures same { IsSame self.old self.new }
    {
        for column in SIZE..area.columns {
            self.give(area, column, w, name);
        }
    }

    // The group gives what it has to the winner, and the pass is widened to its range.
    #[tactic(auto, unfolding(crate::specs::Inside::Merge::absorb_table, crate::specs::Inside::Merge::absorb_pass))]
    fn absorb(&mut self, area: Area, w: u32, name: u32, p: Pass) -> Pass
        ensures words { self.new.words.now ≡ absorb_table self.old.words.now area w name }
        ensures pass { result ≡ absorb_pass self.old.words.now area w name p }
        ensures same { IsSame self.old self.new }
    {
        if name == w {
            return p;
        }
        let range = self.word(area, RANGE, name);
        self.give_all(area, w, name);
        widen(p, range)
    }

    // The groups of the listed items give what they have to the winner; the pass holds all their items.
    #[tactic(auto, unfolding(crate::specs::Inside::Merge::absorb_listed, crate::specs::Inside::Merge::no_pass), using(crate::proofs::MergeSteps::absorb_step, crate::proofs::MergeSteps::absorb_end))]
    fn absorb_all(&mut self, area: Area, l: Listing, w: u32) -> Pass
        ensures words { self.new.words.now ≡ (absorb_listed self.old.words.now area l w).table }
        ensures pass { result ≡ (absorb_listed self.old.words.now area l w).pass }
        ensures same { IsSame self.old self.new }
    {
        let mut p = Pass { from: 65535, to: 0 };
        for i in 0..l.count {
            let x = self.word(l.area, l.column, i);
            let name = self.word(area, NAME, x);
            p = self.absorb(area, w, name, p);
        }
        p
    }

    // The item takes the winner's name and is written down, where its own group was absorbed.
    #[tactic(auto, unfolding(crate::specs::Inside::Merge::rename_table, crate::specs::Inside::Merge::rename_count))]
    fn rename_one(&mut self, area: Area, w: u32, x: u32, count: u32) -> u32
        requires { (count ≤ x) × (x < 4294967295) }
        ensures words { self.new.words.now ≡ rename_table self.old.words.now area w x count }
        ensures count { result ≡ rename_count self.old.words.now area x count }
        ensures same { IsSame self.old self.new }
    {
        let name = self.word(area, NAME, x);
        let size = self.word(area, SIZE, name);
        if size != 0 {
            return count;
        }
        self.set_word(area, NAME, x, w);
        self.set_word(area, CHANGED, count, x);
        count + 1
    }

    // All items of the pass, rising; gives how many changed.
    #[tactic(auto, unfolding(crate::specs::Inside::Merge::rename_pass), using(crate::proofs::MergeSteps::rename_step, crate::proofs::MergeSteps::rename_end, crate::proofs::MergeSteps::rename_count_bound))]
    fn rename_pass(&mut self, area: Area, w: u32, p: Pass) -> u32
        ensures words { self.new.words.now ≡ (rename_pass self.old.words.now area w p).table }
        ensures count { result ≡ (rename_pass self.old.words.now area w p).count }
        ensures same { IsSame self.old self.new }
    {
        let mut count: u32 = 0;
        for x in p.from..p.to {
            count = self.rename_one(area, w, x, count);
        }
        count
    }

    // The winner's range becomes the hull of itself and the pass.
    #[tactic(auto, unfolding(crate::specs::Inside::Merge::extended), using(crate::proofs::MergeSteps::widened_to))]
    fn extend(&mut self, area: Area, w: u32, p: Pass)
        ensures words { self.new.words.now ≡ extended self.old.words.now area w p }
        ensures same { IsSame self.old self.new }
    {
        let range = self.word(area, RANGE, w);
        let q = widen(p, range);
        let hull = (q.from % 65536) * 65536 + (q.to - 1) % 65536;
        self.set_word(area, RANGE, w, hull);
    }

    // The groups of the listed items become one, under the best of their names; the items that changed their name are written down, rising.
    #[tactic(auto, unfolding(crate::specs::Inside::Merge::merge_listed))]
    pub fn merge(&mut self, area: Area, l: Listing) -> Merged
        ensures words { self.new.words.now ≡ (merge_listed self.old.words.now area l).table }
        ensures changed { result.changed ≡ (merge_listed self.old.words.now area l).count }
        ensures name { result.name ≡ best_listed self.old.words.now area l }
        ensures same { IsSame self.old self.new }
    {
        let name = self.best(area, l);
        let p = self.absorb_all(area, l, name);
        let changed = self.rename_pass(area, name, p);
        self.extend(area, name, p);
        Merged { name, changed }
    }
}
