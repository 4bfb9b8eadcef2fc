//! Laws of all heaps.

ghost use Rattle.receive_heap.specs.Layout.{AreHolesDetermined};

/// A law; it does nothing. The held blocks of a heap determine its holes. So the holes after each
/// [`crate::Extents::take`] and each [`crate::Extents::reclaim`] are known: [`crate::Extents::partition`] holds
/// then, and the clauses of these calls state which blocks are held.
pub fn held_determine_holes()
    ensures { AreHolesDetermined }
{}
