//! The numbers of the layers' features in rows, as lists behind one another.
//!
//! The features of all layers are numbered from 0, one layer's behind another's. So in a row's ascending features those of a layer stand together,
//! and a feature's number in its layer is told from the layer's first one.

ghost use Rattle.std.specs.Prelude.{◌≡◌, ◌≤◌, ◌<◌, ◌-◌, ◌++◌, ◌∷◌, [], ℕ, All, AllPairs, IfOk, List, OnOk, map, sum_by};
ghost use Rattle.rows.specs.Made.{row_of};
ghost use Rattle.rows.specs.RowColumns.{HaveLists, layer_lists, set_lists};

use crate::parts::Row;
use faces_text::of_layer;
use geom::NoMemory;
use std::alloc::Allocator;

/// Lists of the numbers of features, in the layout of GeoArrow's List.
#[derive(Debug, Drop)]
pub struct NumberLists<A: Allocator> {
    /// Those of all lists, one list behind another.
    pub numbers: Vec<u32, A>,
    /// Where each list begins among the numbers, and where the last one ends.
    pub offsets: Vec<u32, A>,
}

impl<A: Allocator> NumberLists<A> {
    /// No lists.
    fn new(alloc: A) -> Result<NumberLists<A>, NoMemory>
    where
        A: Copy,
        ensures { IfOk result (λ l. HaveLists [] l) }
    {
        let mut offsets = Vec::new(alloc);
        offsets.push(0)?;
        Ok(NumberLists {
            numbers: Vec::new(alloc),
            offsets,
        })
    }

    /// Adds the list of these features' numbers, counted from a first one.
    fn push(&mut self, features: &[u32], first: u32) -> Result<(), NoMemory>
        requires { All (λ f. first ≤ f) features.now }
        ensures { (lists : List (List ℕ)) → HaveLists lists self.old → OnOk result (HaveLists (lists ++ map (λ f. f - first) features.now ∷ []) self.new) }
    {
        for feature in features {
            self.numbers.push(*feature - first)?;
        }
        let past = self.numbers.len();
        self.offsets
            .push(u32::try_from(past).map_err(|_| NoMemory)?)?;
        Ok(())
    }

    /// Adds a list for each row, of the features of the layer from one number to before another one.
    fn push_layer<B: Allocator>(
        &mut self,
        rows: &[Row<B>],
        first: u32,
        past: u32,
    ) -> Result<(), NoMemory>
        requires { All (λ r. AllPairs (λ f g. f < g) r.features.items) rows.now }
        ensures { (lists : List (List ℕ)) → HaveLists lists self.old → OnOk result (HaveLists (lists ++ layer_lists first past (map row_of rows.now)) self.new) }
    {
        for row in rows {
            self.push(of_layer(&row.features, first, past), first)?;
        }
        Ok(())
    }
}

/// The lists of rows: for each layer in turn one for each row. The counts are the numbers of the layers' features.
pub(crate) fn lists_of<A: Allocator + Copy, B: Allocator>(
    alloc: A,
    counts: &[u32],
    rows: &[Row<B>],
) -> Result<NumberLists<A>, NoMemory>
    requires few { sum_by (λ c. c) counts.now < 4294967296 }
    requires ascending { All (λ r. AllPairs (λ f g. f < g) r.features.items) rows.now }
    ensures { IfOk result (HaveLists (set_lists 0 counts.now (map row_of rows.now))) }
{
    let mut lists = NumberLists::new(alloc)?;
    let mut first = 0u32;
    for count in counts {
        let past = first + *count;
        lists.push_layer(rows, first, past)?;
        first = past;
    }
    Ok(lists)
}
