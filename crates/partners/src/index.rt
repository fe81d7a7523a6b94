//! The search for a name in a chain by an index of its names.

ghost use Rattle.std.specs.Prelude.{◌≡◌, ◌<◌, ◌≤◌, length};
ghost use Rattle.std.specs.Option.{IfSome};
ghost use Rattle.partners.specs.Naming.{Finds, Indexed, row_for};

use crate::search::{find, is_named};
use sheet::label::{label_at, mix};
use sheet::record::head_at;

/// An index of a chain by its names: the last record of each row, and for each record the one
/// before it in its row; 0 is none. Each record of a chain is below 1,024.
#[derive(Clone, Copy)]
pub(crate) struct Index {
    heads: [u16; 1024],
    olds: [u16; 1024],
}

// The row of an index that a name belongs to.
fn row_at(name: &[u8]) -> usize
    ensures { (result ≡ row_for name.now) × (result < 1024) }
{
    mix(name) / 4194304
}

impl Index {
    /// The index of the chain at a link.
    pub(crate) fn of(t: &[u8], n: usize, link: usize) -> Index
        requires { n ≤ 1024 }
        ensures { Indexed n t.now link result.heads result.olds }
    {
        let mut index = Index {
            heads: [0u16; 1024],
            olds: [0u16; 1024],
        };
        index.add(t, n, link);
        index
    }

    // Puts the fields of the chain at a link into the index.
    fn add(&mut self, t: &[u8], n: usize, link: usize)
        requires { (n ≤ 1024) × Indexed n t.now link self.old.heads self.old.olds }
        ensures { Indexed n t.now link self.new.heads self.new.olds }
    {
        let mut floor = 0;
        let mut j = link;
        while floor < j {
            if n <= j {
                return;
            }
            let h = head_at(t, j);
            let k = row_at(label_at(t, n, h.name, h.name_len));
            let old = self.heads[k];
            self.olds[j] = old;
            self.heads[k] = j as u16;
            floor = j;
            j = h.next;
        }
    }

    /// A field of the chain at `r` that has a name; 0 where there is none. The index says which are
    /// tried first. None where eight of a row were tried in vain: a row is longer where names are
    /// made to fall into it.
    pub(crate) fn look_up(&self, t: &[u8], n: usize, want: &[u8], r: usize) -> Option<usize>
        requires { ((n ≤ 1024) × (length want.now ≤ 255)) × Indexed n t.now r self.now.heads self.now.olds }
        ensures { IfSome result (λ j. (j < 1024) × Finds n t.now want.now r j) }
    {
        let mut j = usize::from(self.heads[row_at(want)]);
        for _ in 0..8 {
            if j == 0 {
                return Some(find(t, n, want, r));
            }
            if is_named(t, n, head_at(t, j), want) {
                return Some(j);
            }
            j = usize::from(self.olds[j]);
        }
        None
    }
}
