// Workers that draw tasks from a board, by fork and join of halves.
ghost use Rattle.std.specs.Prelude.{◌≡◌, ◌+◌, ◌-◌, ◌<◌, ◌≤◌, [], Ok as ok_of, IfOk};
ghost use Rattle.std.specs.Thread.{IsSync};
ghost use Rattle.dv_crew.specs.Orders.{counterpart};
ghost use Rattle.dv_crew.specs.Results.{AreResults, DoesTasks, Gives, GivesWith, HasDoneAll, IsReady, IsReadyWith};
ghost use Rattle.dv_crew.specs.Work.{HasWorked, HasWorkedWith, MayWork, new_seat};

use crate::carried::{Alone, Carrier};
use crate::orders::Order;
use crate::results::laid_out;
use dv_board::{Board, BoardSeat};
use dv_outside::Gate;
use dv_text::{List, Memory};
use std::alloc::Global;
use std::thread::{Threads, join};

// What all workers of a crew share beside the board.
#[derive(Drop)]
pub(crate) struct Crew<'a, C, F, G> {
    pub(crate) alloc: Global,
    pub(crate) carrier: &'a C,
    pub(crate) job: &'a F,
    pub(crate) gate: &'a G,
    pub(crate) tasks: u32,
    pub(crate) order: Order,
}

// A number that a worker drew, with the result of the task for which it stands.
#[derive(Drop)]
pub(crate) struct Done<T> {
    pub(crate) number: u32,
    pub(crate) out: T,
}

// A worker, or several: the seat at the board, and what it has of its own.
#[derive(Drop)]
pub(crate) struct Worker<S> {
    pub(crate) seat: BoardSeat,
    pub(crate) own: S,
}

// What one worker ends with, and what it has done.
type Worked<S, T> = Result<(Worker<S>, Vec<Done<T>>), Memory>;

// Does the task for which a number stands.
fn do_task<S, T, C, F: Fn(u32, S) -> Result<(S, T), Memory>, G: Gate>(
    crew: &Crew<'_, C, F, G>,
    number: u32,
    own: S,
) -> Result<(S, T), Memory>
    requires drawn { number < crew.now.tasks }
    requires ready { F.pre crew.now.job.now (counterpart crew.now.order crew.now.tasks number) own }
    ensures { IfOk result (λ r. F.post crew.now.job.now (counterpart crew.now.order crew.now.tasks number) own (ok_of r)) }
{
    let task = crew.order.counterpart(crew.tasks, number);
    crew.gate.before(task);
    let out = (crew.job)(task, own);
    crew.gate.after(task);
    out
}

// Draws until no number is left. What is above all drawn numbers so far rises, which ends the loop.
fn work<S: Drop, T: Drop, C: Carrier<S>, F: Fn(u32, S) -> Result<(S, T), Memory>, G: Gate>(
    crew: &Crew<'_, C, F, G>,
    board: &Board,
    worker: Worker<S>,
) -> Worked<S, T>
    requires ready { IsReadyWith (C.has_done crew.now.carrier.now) (F.pre crew.now.job.now) crew.now.tasks }
    requires does { DoesTasks (C.share crew.now.carrier.now) (C.has_done crew.now.carrier.now) (F.post crew.now.job.now) crew.now.tasks }
    requires board { board.now.tasks ≡ crew.now.tasks }
    requires seat { worker.seat ≡ new_seat board.now worker.seat.share }
    requires own { C.has_done crew.now.carrier.now worker.own [] }
    ensures worked { IfOk result (λ r. HasWorked (C.has_done crew.now.carrier.now) (GivesWith (F.post crew.now.job.now)) crew.now.order crew.now.tasks board.now worker.seat.share r.0 r.1.items) }
    ensures share { IfOk result (λ r. C.share crew.now.carrier.now r.0.own ≡ C.share crew.now.carrier.now worker.own) }
{
    let Worker { mut seat, mut own } = worker;
    let mut done = Vec::new(crew.alloc);
    let mut above = 0u32;
    'draws: while let Some(number) = board.claim(&mut seat) {
        let (after, out) = do_task(crew, number, own)?;
        own = after;
        done.push(Done { number, out })?;
        above = number + 1;
    }
    Ok((Worker { seat, own }, done))
}

// So many workers, of which the last stays on this thread.
#[cycle(crew)]
fn run_crew<
    R: Threads + Sync,
    S: Send + Drop,
    T: Send + Drop,
    C: Carrier<S> + Sync,
    F: Fn(u32, S) -> Result<(S, T), Memory> + Sync,
    G: Gate,
>(
    rt: &R,
    crew: &Crew<'_, C, F, G>,
    board: &Board,
    workers: u32,
    mut seat: BoardSeat,
    mut own: S,
) -> Worked<S, T>
    requires some { 1 ≤ workers }
    requires ready { IsReadyWith (C.has_done crew.now.carrier.now) (F.pre crew.now.job.now) crew.now.tasks }
    requires does { DoesTasks (C.share crew.now.carrier.now) (C.has_done crew.now.carrier.now) (F.post crew.now.job.now) crew.now.tasks }
    requires board { board.now.tasks ≡ crew.now.tasks }
    requires seat { seat ≡ new_seat board.now workers }
    requires own { C.has_done crew.now.carrier.now own [] }
    requires share { (workers ≤ C.share crew.now.carrier.now own) × (C.share crew.now.carrier.now own ≤ 64) }
    ensures worked { IfOk result (λ r. HasWorked (C.has_done crew.now.carrier.now) (GivesWith (F.post crew.now.job.now)) crew.now.order crew.now.tasks board.now workers r.0 r.1.items) }
    ensures share { IfOk result (λ r. C.share crew.now.carrier.now r.0.own ≡ C.share crew.now.carrier.now own) }
{
    if workers == 1 {
        return work(crew, board, Worker { seat, own });
    }
    let low = workers / 2;
    let high = workers - low;
    let other = board.split(&mut seat, low);
    let part = crew.carrier.split(&mut own, low);
    let front = move || -> Worked<S, T>
        requires { IsSync R.row × MayWork (C.has_done crew.now.carrier.now) (C.share crew.now.carrier.now) (F.pre crew.now.job.now) (F.post crew.now.job.now) crew.now.tasks board.now low other part }
        ensures { IfOk result (λ r. HasWorkedWith (C.has_done crew.entry.now.carrier.now) (C.share crew.entry.now.carrier.now) (F.post crew.entry.now.job.now) crew.entry.now.order crew.entry.now.tasks board.entry.now low part r.0 r.1.items) }
    { run_crew(rt, crew, board, low, other, part) };
    let back = move || -> Worked<S, T>
        requires { IsSync R.row × MayWork (C.has_done crew.now.carrier.now) (C.share crew.now.carrier.now) (F.pre crew.now.job.now) (F.post crew.now.job.now) crew.now.tasks board.now high seat own }
        ensures { IfOk result (λ r. HasWorkedWith (C.has_done crew.entry.now.carrier.now) (C.share crew.entry.now.carrier.now) (F.post crew.entry.now.job.now) crew.entry.now.order crew.entry.now.tasks board.entry.now high own r.0 r.1.items) }
    { run_crew(rt, crew, board, high, seat, own) };
    let (front, back) = join(rt, front, back);
    let (other, mut done) = front?;
    let (mut worker, mut rest) = back?;
    let Worker { seat, own } = other;
    board.join(&mut worker.seat, seat);
    crew.carrier.join(&mut worker.own, own);
    rest.append(&mut done)?;
    Ok((worker, rest))
}

/// As `run_tasks`, where each worker carries something of its own, which each task may change: `job` is given what its
/// worker has, and gives it back with the result. It is cut in two where workers part, and put together where they come
/// back. What is left has the share that it had, and the work of all tasks.
///
/// `Memory` where any worker ran out of it.
pub fn run_tasks_with<
    R: Threads + Sync,
    S: Send + Drop,
    T: Send + Drop,
    C: Carrier<S> + Sync,
    F: Fn(u32, S) -> Result<(S, T), Memory> + Sync,
    G: Gate,
>(
    rt: &R,
    alloc: Global,
    carrier: &C,
    job: &F,
    own: S,
    tasks: u32,
    workers: u32,
    order: Order,
    gate: &G,
) -> Result<(List<T>, S), Memory>
    requires few { tasks ≤ 256 }
    requires ready { IsReadyWith (C.has_done carrier.now) (F.pre job.now) tasks }
    requires does { DoesTasks (C.share carrier.now) (C.has_done carrier.now) (F.post job.now) tasks }
    requires own { C.has_done carrier.now own [] }
    requires workers { (1 ≤ workers) × (workers ≤ C.share carrier.now own) × (C.share carrier.now own ≤ 64) }
    ensures results { IfOk result (λ r. AreResults (GivesWith (F.post job.now)) tasks r.0) }
    ensures own { IfOk result (λ r. HasDoneAll (C.has_done carrier.now) tasks r.1) }
    ensures share { IfOk result (λ r. C.share carrier.now r.1 ≡ C.share carrier.now own) }
{
    let crew = Crew {
        alloc,
        carrier,
        job,
        gate,
        tasks,
        order,
    };
    let workers = workers.min(tasks).max(1);
    let (board, seat) = Board::new(alloc, tasks, workers)?;
    let (worker, done) = run_crew(rt, &crew, &board, workers, seat, own)?;
    let Worker { seat, own } = worker;
    board.close(seat);
    Ok((laid_out(&crew, done)?, own))
}

/// The results of the tasks with the numbers below `tasks`, in the order of these numbers: what
/// `job` gives of each. So many workers draw the numbers, each number once, one of them on the
/// calling thread, and none waits. There are no more workers than tasks. Before a task its worker
/// calls `before` of the gate, and behind it `after`. Under `Reverse` the number n stands for the
/// task `tasks - 1 - n`.
///
/// `Memory` where any worker ran out of it.
pub fn run_tasks<
    R: Threads + Sync,
    T: Send + Drop,
    F: Fn(u32) -> Result<T, Memory> + Sync,
    G: Gate,
>(
    rt: &R,
    alloc: Global,
    job: &F,
    tasks: u32,
    workers: u32,
    order: Order,
    gate: &G,
) -> Result<List<T>, Memory>
    requires few { tasks ≤ 256 }
    requires ready { IsReady (F.pre job.now) tasks }
    requires workers { (1 ≤ workers) × (workers ≤ 64) }
    ensures results { IfOk result (AreResults (Gives (F.post job.now)) tasks) }
{
    let alone = |task: u32, own: u32| -> Result<(u32, T), Memory>
        requires { F.pre job.now task }
        ensures { IfOk result (λ r. F.post job.entry.now task (ok_of r.1) × (r.0 ≡ own)) }
    { Ok((own, job(task)?)) };
    let (results, _share) = run_tasks_with(
        rt, alloc, &Alone, &alone, workers, tasks, workers, order, gate,
    )?;
    Ok(results)
}
