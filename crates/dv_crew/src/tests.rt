// Many workers over tasks, as threads.
ghost use Rattle.std.specs.Prelude.{◌≡◌, ◌*◌, ◌<◌, ◌≤◌, IfOk};

use crate::{Order, run_tasks};
use dv_outside::{HoldGate, OpenGate};
use dv_text::Memory;
use std::alloc::Global;
use std::thread::Threads;

// Whether so many workers give what one after another would, where a task gives twice its number.
fn gives_doubles<R: Threads + Sync>(
    rt: &R,
    alloc: Global,
    tasks: u32,
    workers: u32,
    order: Order,
) -> Result<bool, Memory>
    requires few { tasks ≤ 256 }
    requires workers { (1 ≤ workers) × (workers ≤ 64) }
{
    let double = |task: u32| -> Result<u32, Memory>
        requires { task < 256 }
        ensures { IfOk result (λ out. out ≡ 2 * task) }
    { Ok(2 * task) };
    let doubles = run_tasks(rt, alloc, &double, tasks, workers, order, &OpenGate)?;
    let items = doubles.items();
    Ok(
        items.len() == tasks as usize
            && (0..tasks)
                .zip(items)
                .all(|(task, out)| *out == task.saturating_mul(2)),
    )
}

#[test]
fn any_workers_in_either_order_give_the_same_results(rt: HostRuntime) {
    for order in [Order::Declared, Order::Reverse] {
        assert!(rt; gives_doubles(&rt, rt.alloc(), 200, 1, order) == Ok(true));
        assert!(rt; gives_doubles(&rt, rt.alloc(), 200, 3, order) == Ok(true));
        assert!(rt; gives_doubles(&rt, rt.alloc(), 200, 4, order) == Ok(true));
        assert!(rt; gives_doubles(&rt, rt.alloc(), 200, 64, order) == Ok(true));
        assert!(rt; gives_doubles(&rt, rt.alloc(), 2, 64, order) == Ok(true));
        assert!(rt; gives_doubles(&rt, rt.alloc(), 0, 64, order) == Ok(true));
    }
}

// Whether task 0 was let go before task 1 had ended.
fn is_let_go<R: Threads + Sync>(
    rt: &R,
    alloc: Global,
    workers: u32,
    turns: u64,
) -> Result<bool, Memory>
    requires workers { (1 ≤ workers) × (workers ≤ 64) }
{
    let gate = HoldGate::new(turns);
    let same = |task: u32| -> Result<u32, Memory>
        requires { task < 256 }
        ensures { IfOk result (λ out. out ≡ task) }
    { Ok(task) };
    let _same = run_tasks(rt, alloc, &same, 8, workers, Order::Declared, &gate)?;
    Ok(gate.reached())
}

#[test]
fn a_second_worker_ends_task_1_while_task_0_is_held(rt: HostRuntime) {
    assert!(rt; is_let_go(&rt, rt.alloc(), 2, 50_000_000) == Ok(false));
    assert!(rt; is_let_go(&rt, rt.alloc(), 1, 1_000) == Ok(true));
}
