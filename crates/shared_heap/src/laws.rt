//! Laws of fresh loads. The functions have no effect: each clause is a law.

ghost use Rattle.std.specs.Prelude.{◌≤◌, ℕ, List, [], ◌∷◌, ◌++◌, length};
ghost use Rattle.mrpc_base.specs.Heap.{AreLoads};
ghost use Rattle.shared_heap.specs.Fresh.{AfterLoad, IsPrefix, CallLoads, AreFresh, IsLaterWriter, HasLoaded, Reading, Writing};

/// If a reader made some loads, one after the other, it is of the same heap, still knows all stores that it knew, and
/// made these loads.
pub fn loads_preserve_reader()
    ensures { (old new : Reading) (loads : List (ℕ × ℕ)) → AreLoads AfterLoad old loads new → HasLoaded old loads new }
{}

/// How the loads of calls are fresh, call by call. If nothing was loaded, they are. Now let the loads of some calls
/// be fresh for what a reader knows, and let the reader make the loads of one more call. That call is after at most
/// as many stores as the reader knew before, such as those of a note that it met. Then the loads of all calls are
/// fresh for what the reader then knows. They stay fresh for every list of stores that extends this one.
pub fn calls_are_fresh()
    ensures none { (stores : List (ℕ × ℕ)) → AreFresh [] stores }
    ensures one_more { (calls : List CallLoads) (after : ℕ) (loads : List (ℕ × ℕ)) (old new : Reading)
        → AreFresh calls old.known → after ≤ length old.known → AreLoads AfterLoad old loads new
        → AreFresh (calls ++ (record { after = after; loads = loads }) ∷ []) new.known }
    ensures after_note { (calls : List CallLoads) (noted loads : List (ℕ × ℕ)) (old new : Reading)
        → AreFresh calls old.known → IsPrefix old.known noted → AreLoads AfterLoad old loads new
        → AreFresh (calls ++ (record { after = length noted; loads = loads }) ∷ []) new.known }
    ensures later { (calls : List CallLoads) (stores all : List (ℕ × ℕ)) → AreFresh calls stores → IsPrefix all stores
        → AreFresh calls all }
{}

/// `IsLaterWriter` is reflexive and transitive.
pub fn since_is_transitive()
    ensures itself { (writer : Writing) → IsLaterWriter writer writer }
    ensures later { (first next last : Writing) → IsLaterWriter first next → IsLaterWriter next last → IsLaterWriter first last }
{}
