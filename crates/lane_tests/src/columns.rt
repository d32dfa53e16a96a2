//! Pairs of points, stored by coordinate.

ghost use Rattle.std.specs.Prelude.{◌≡◌, ◌++◌, ◌∷◌, ◌<◌, ◌^◌, [], List, OnErr, OnOk, length, take};
ghost use Rattle.lane_tests.specs.Columns.{AreColumns, Ends, pairs_of};

use geom::{NoMemory, Pt};
use std::alloc::Allocator;
use std::marker::Model;

/// Pairs of points, numbered from 0, with a column for each coordinate, so that eight of them load at once.
#[derive(Drop)]
pub struct Columns<A: Allocator> {
    pub px: Vec<i32, A>,
    pub py: Vec<i32, A>,
    pub qx: Vec<i32, A>,
    pub qy: Vec<i32, A>,
}

impl<A: Allocator> Model for Columns<A> {
    ghost Value = { List Ends };

    ghost view = { λ c. pairs_of c.px.items c.py.items c.qx.items c.qy.items };

    ghost invariant = { λ c. AreColumns c.px.items c.py.items c.qx.items c.qy.items };
}

impl<A: Allocator + Copy> Columns<A> {
    /// No pairs.
    pub fn new(alloc: A) -> Columns<A>
        ensures { result ≡ [] }
    {
        Columns {
            px: Vec::new(alloc),
            py: Vec::new(alloc),
            qx: Vec::new(alloc),
            qy: Vec::new(alloc),
        }
    }
}

impl<A: Allocator> Columns<A> {
    /// How many pairs there are.
    pub fn len(&self) -> usize
        ensures value { result ≡ length self.now }
        ensures few { result < 2 ^ 32 }
    {
        self.px.len()
    }

    /// Adds a pair. An `Err` changes nothing.
    pub fn push(&mut self, p: Pt, q: Pt) -> Result<(), NoMemory>
        ensures ok { OnOk result (self.new ≡ self.old ++ (p, q) ∷ []) }
        ensures err { OnErr result (self.new ≡ self.old) }
    {
        let count = self.px.len();
        if count >= 4294967295 {
            return Err(NoMemory);
        }
        match push_pair(&mut self.px, &mut self.py, &mut self.qx, &mut self.qy, p, q) {
            Ok(()) => Ok(()),
            Err(e) => {
                self.px.truncate(count);
                self.py.truncate(count);
                self.qx.truncate(count);
                self.qy.truncate(count);
                Err(e)
            }
        }
    }
}

// Adds the coordinates of a pair, or some of them.
fn push_pair<A: Allocator>(
    px: &mut Vec<i32, A>,
    py: &mut Vec<i32, A>,
    qx: &mut Vec<i32, A>,
    qy: &mut Vec<i32, A>,
    p: Pt,
    q: Pt,
) -> Result<(), NoMemory>
    ensures px { OnOk result (px.new.items ≡ px.old.items ++ p.x ∷ []) }
    ensures py { OnOk result (py.new.items ≡ py.old.items ++ p.y ∷ []) }
    ensures qx { OnOk result (qx.new.items ≡ qx.old.items ++ q.x ∷ []) }
    ensures qy { OnOk result (qy.new.items ≡ qy.old.items ++ q.y ∷ []) }
    ensures px_kept { take (length px.old.items) px.new.items ≡ px.old.items }
    ensures py_kept { take (length py.old.items) py.new.items ≡ py.old.items }
    ensures qx_kept { take (length qx.old.items) qx.new.items ≡ qx.old.items }
    ensures qy_kept { take (length qy.old.items) qy.new.items ≡ qy.old.items }
{
    px.push(p.x)?;
    py.push(p.y)?;
    qx.push(q.x)?;
    qy.push(q.y)?;
    Ok(())
}
