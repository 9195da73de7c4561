// The cycle and the run for programs in other languages: what the benchmark of bench/ links.
// What comes in: a plan and tables, each as a pointer and a length.
// What goes out: `cycle`'s answer, and all that `run` gives.
#![tactic(auto)]

ghost use Rattle.std.specs.Prelude.{◌≡◌};
ghost use Rattle.turn.specs.Cycle.{cycle_of};
ghost use Rattle.cycle.specs.Run.{result as run_result, run_of};

#[unsafe(no_mangle)]
pub extern "C" fn plan_cycle(
    plan: &[u32],
    mask: u32,
    values: &[u64],
    memory: &mut [u64],
    outputs: &mut [u64],
) -> u32
    ensures r_value { result ≡ (cycle_of plan.now mask values.now memory.old outputs.old).answer }
    ensures outputs_after { outputs.new ≡ (cycle_of plan.now mask values.now memory.old outputs.old).outputs }
    ensures memory_after { memory.new ≡ (cycle_of plan.now mask values.now memory.old outputs.old).memory }
{
    cycle::cycle(plan, mask, values, memory, outputs).answer
}

#[unsafe(no_mangle)]
pub extern "C" fn plan_run(
    plan: &[u32],
    masks: &[u32],
    values: &[u64],
    memory: &mut [u64],
    outputs: &mut [u64],
    answers: &mut [u32],
) -> u32
    ensures { let after = run_result result memory.new outputs.new answers.new in
        after ≡ run_of plan.now masks.now values.now memory.old outputs.old answers.old }
{
    cycle::run(plan, masks, values, memory, outputs, answers)
}
