//! Laws of full links: in every second of every day a vehicle enters a queue because it has room, or because the vehicle
//! is stuck and is pushed in; so a queue never holds more than its storage but for those that were pushed, and no more
//! vehicles pass a link than its flow allows. Each is the contract of a call that does nothing.
#![tactic(auto)]

ghost use Rattle.std.specs.Prelude.{◌≡◌, ◌≢◌, ℕ, List, ◌∷◌, ◌++◌, All};
ghost use Rattle.events.specs.declared.event.Phase.{Phase, TheVariants.C, TheVariants.D};
ghost use Rattle.traffic.specs.Day.{node_turns, turns_of, second, world_start, world_at};
ghost use Rattle.traffic.specs.{Moves.run, Nodes.node_view, Rows.World, Setup.Setup, Worlds.Storage, Worlds.EnterByRule, Worlds.FlowKept};
ghost use Rattle.traffic.specs.declared.{moves.Move.Move, stage.Stage.TheVariants.Queue, stage.Stage.TheVariants.Buffer};
ghost use Rattle.law_capacity.specs.Moves.{IsElsewhere, second_moves, KeepsRule};

/// A vehicle enters a link because there is room, or because it is stuck and is pushed in, and it knows which: by the places
/// that a node counts in its turn, and by the world of the very moment, which the moves of the second before it left. There
/// it is the first of a buffer, and the link has room, or the link is full and the vehicle has been first for so long.
pub fn vehicles_enter_by_the_rule()
    ensures rule { (S : Setup) (t n : ℕ) (W : World)
        → EnterByRule S.settings.stuck t (node_view S t n W).out_links (node_turns S t n W) }
    ensures elsewhere { (S : Setup) (t n : ℕ) (p : Phase) (W : World) → p ≢ C
        → All (IsElsewhere Queue) (turns_of S t p n W) }
    ensures moves { (S : Setup) (t : ℕ) (W : World) → second S t W ≡ run S t (second_moves S t W) W }
    ensures in_time { (S : Setup) (t : ℕ) (W : World) (before later : List Move) (m : Move)
        → second_moves S t W ≡ before ++ m ∷ later → KeepsRule S t (run S t before W) m }
{}

/// No queue has more rows that were not pushed in than its storage, in every second of every day.
pub fn days_keep_storage()
    ensures start { (S : Setup) → Storage S (world_start S) }
    ensures kept { (S : Setup) (t : ℕ) (W : World) → Storage S W → Storage S (second S t W) }
    ensures always { (S : Setup) (t : ℕ) → Storage S (world_at S t) }
{}

/// In any n seconds in a row of a day no more vehicles enter the buffer of a link than the flow allows, and only the turns
/// of links, which these counts are of, put a vehicle into a buffer.
pub fn days_keep_flow()
    ensures kept { (S : Setup) → FlowKept S (world_start S) }
    ensures elsewhere { (S : Setup) (t n : ℕ) (p : Phase) (W : World) → p ≢ D
        → All (IsElsewhere Buffer) (turns_of S t p n W) }
{}
