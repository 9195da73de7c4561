// What reading makes of the two texts.
ghost use Rattle.std.specs.Prelude.{◌≡◌, take};
ghost use Rattle.tipirun.specs.Reading.{planned_of, Judged};
ghost use Rattle.tipirun.specs.Machine.{StagePassed};

use figures::{Stage, State};

fn planned(s: State, n: u32) -> State
    ensures { result ≡ planned_of s n }
{
    State {
        stage: Stage::CycleCount,
        number: None,
        left: 0,
        port: 0,
        mask: 0,
        plan: n as usize,
        ..s
    }
}

// Both texts are there: they are read. A function of its own in the program too: the tables of all rows are its frame, and
// a byte that is only counted or kept does not pay for them.
#[inline(never)]
fn judged(s: State, actor: &[u8], bindings: &[u8], plan: &mut [u32]) -> State
    ensures { Judged (take s.actor actor.now) (take s.bindings bindings.now) s plan.old result plan.new }
{
    let k = s.actor.min(actor.len());
    let m = s.bindings.min(bindings.len());
    match tipi::read(&actor[..k], &bindings[..m], plan) {
        Ok(n) => planned(s, n),
        Err(why) => s.at_stage(Stage::Stopped(why.row, why.place), 0),
    }
}

// A stage of which nothing is to come is over.
pub fn passed(s: State, actor: &[u8], bindings: &[u8], plan: &mut [u32]) -> State
    ensures { StagePassed s actor.now bindings.now plan.old result plan.new }
{
    if 0 < s.left {
        return s;
    }
    match s.stage {
        Stage::Actor => s.at_stage(Stage::BindingsCount, 0),
        Stage::Bindings => judged(s, actor, bindings, plan),
        Stage::Line => s.at_stage(Stage::Through, 0),
        Stage::ActorCount
        | Stage::BindingsCount
        | Stage::CycleCount
        | Stage::Through
        | Stage::Wrong
        | Stage::Stopped(_, _) => s,
    }
}
