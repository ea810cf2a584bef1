//! What holds of the accesses of a step.

ghost use Rattle.std.specs.Prelude.{ℕ, ℤ, List, Ok};
ghost use Rattle.store_mem.specs.Access as access;
ghost use Rattle.store_mem.specs.Laws.{ReadsFirst, StoresFirst, SetsScalar, StoresElement, StoresField, MakesObject, GetsByte, PutsText, FreesObject, LocksMutex, UnlocksMutex, IgnoresThreads, GivesIgnoringThreads, CountsThreads, CountsLive, TellsLive, SpawnsThread, SpawnKeepsMarks, BeginKeepsMarks, EndKeepsMarks, ForgetUndoesSpawn};

/// What a step does to the memory is what these accesses do.
pub fn a_step_makes_these_accesses()
    ensures scalar { ReadsFirst }
    ensures first { StoresFirst }
    ensures set { SetsScalar }
    ensures element { StoresElement }
    ensures field { StoresField }
    ensures new { MakesObject }
    ensures byte { GetsByte }
    ensures text { PutsText }
    ensures free { FreesObject }
    ensures lock { LocksMutex }
    ensures unlock { UnlocksMutex }
{}

/// The accesses are the same whatever the threads, and leave them.
pub fn threads_play_no_part()
    ensures write { (g : ℕ) (at v : ℤ) → IgnoresThreads (λ s. access.written s g at v) }
    ensures set_scalar { (g : ℕ) (v : ℤ) → IgnoresThreads (λ s. Ok (access.set_scalar s g v)) }
    ensures set_field { (o : ℤ) (owner field : ℕ) (v : ℤ)
        → IgnoresThreads (λ s. access.field_written s o owner field v) }
    ensures new_object { (fields : List ℕ) (owner : ℕ)
        → GivesIgnoringThreads (λ s. access.made fields s owner) }
    ensures free { (o : ℤ) → IgnoresThreads (λ s. access.freed s o) }
    ensures lock { (m t : ℕ) → GivesIgnoringThreads (λ s. access.locked s m t) }
    ensures unlock { (m t : ℕ) → IgnoresThreads (λ s. access.unlocked s m t) }
    ensures get_byte { GivesIgnoringThreads (λ s. Ok (access.got s)) }
    ensures put_text { (text : List ℕ) → IgnoresThreads (λ s. access.put s text) }
{}

/// The marks of a state's threads tell what a step asks of them: how many there are, how many are
/// live and which, and whether there is room for another.
pub fn marks_tell_the_threads()
    ensures made { CountsThreads }
    ensures count { CountsLive }
    ensures live { TellsLive }
    ensures spawn { SpawnsThread }
{}

/// The marks stay those of the threads where threads are made, begin and end.
pub fn marks_follow_the_threads()
    ensures spawn { SpawnKeepsMarks }
    ensures begin { BeginKeepsMarks }
    ensures end { EndKeepsMarks }
    ensures forget { ForgetUndoesSpawn }
{}
