// What the workers of a crew have done, laid out by the numbers of the tasks.
ghost use Rattle.std.specs.Prelude.{◌≡◌, ℕ, ◌+◌, ◌<◌, ◌≤◌, ◌==◌, [], ◌∷◌, IfOk, position};
ghost use Rattle.dv_board.specs.Counting.{once_below, times};
ghost use Rattle.dv_crew.specs.Orders.{counterpart};
ghost use Rattle.dv_crew.specs.Results.{AreResults, GivesWith};
ghost use Rattle.dv_crew.specs.Work.{AreDone, numbers};

use crate::crews::{Crew, Done};
use dv_text::{List, Memory};

// The place of the first with a number.
fn position_of<T>(done: &[Done<T>], number: u32) -> Option<usize>
    ensures { result ≡ position (λ one. one.number == number) done.now }
{
    done.iter().position(|one| one.number == number)
}

// Takes the result of a task out.
fn take_result<S, T: Drop, C, F: Fn(u32, S) -> Result<(S, T), Memory>, G>(
    crew: &Crew<'_, C, F, G>,
    done: &mut Vec<Done<T>>,
    task: u32,
) -> T
    requires task { task < crew.now.tasks }
    requires there { 1 ≤ times (counterpart crew.now.order crew.now.tasks task) (numbers done.old.items) }
    requires each { AreDone (GivesWith (F.post crew.now.job.now)) crew.now.order crew.now.tasks done.old.items }
    ensures given { GivesWith (F.post crew.now.job.now) task result }
    ensures left { (x : ℕ) → times x (numbers done.new.items) + times x (counterpart crew.now.order crew.now.tasks task ∷ []) ≡ times x (numbers done.old.items) }
    ensures each { AreDone (GivesWith (F.post crew.now.job.now)) crew.now.order crew.now.tasks done.new.items }
{
    let number = crew.order.counterpart(crew.tasks, task);
    match position_of(done, number) {
        Some(place) => done.remove(place).out,
        None => unreachable!(),
    }
}

// The results of all tasks, in the order of their numbers.
pub(crate) fn laid_out<S, T: Drop, C, F: Fn(u32, S) -> Result<(S, T), Memory>, G>(
    crew: &Crew<'_, C, F, G>,
    mut done: Vec<Done<T>>,
) -> Result<List<T>, Memory>
    requires once { (x : ℕ) → times x (numbers done.items) ≡ once_below x crew.now.tasks }
    requires each { AreDone (GivesWith (F.post crew.now.job.now)) crew.now.order crew.now.tasks done.items }
    ensures { IfOk result (AreResults (GivesWith (F.post crew.now.job.now)) crew.now.tasks) }
{
    let mut results = List::new(crew.alloc);
    'tasks: for task in 0..crew.tasks {
        results.push(take_result(crew, &mut done, task))?;
    }
    Ok(results)
}
