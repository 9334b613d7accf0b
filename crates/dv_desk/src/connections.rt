// Connections are served by a desk.
use crate::answers::refusal;
use crate::desks::Desk;
use dv_http::{Buffer, Request, read_request};
use dv_outside::{Doors, Failed, Gate, Link};
use dv_records::Keeper;
use dv_serving::{Came, MOST_REQUESTS, Served, came_of, end_with, refuse, say};
use dv_text::{KeyDigest, Memory};
use std::alloc::Global;
use std::thread::Threads;

impl<R: Threads + Sync, K: Keeper, H: KeyDigest, G: Gate> Desk<'_, '_, '_, '_, '_, R, K, H, G> {
    ghost use Rattle.std.specs.Prelude.{◌≡◌, ◌≤◌};
    ghost use Rattle.dv_text.specs.Causes.{HasCause, Rose};
    ghost use Rattle.dv_serving.specs.declared.steps.Came.TheVariants as came;
    ghost use Rattle.dv_serving.specs.Doors.{ServesDoors};
    ghost use Rattle.dv_serving.specs.Serving.{IsServedCause, ServesOn, tells};
    ghost use Rattle.dv_serving.specs.Steps.{ComesOn, IsLinkCause, RepliedTo};
    ghost use Rattle.dv_desk.specs.Answers.{refusal as refusal_of};
    ghost use Rattle.dv_desk.specs.Desks.{moment_of, places};
    ghost use Rattle.dv_desk.specs.Turns.{CanReply, IsReplied};

    // Answers a request that was taken.
    fn reply_to<L: Link>(&mut self, alloc: Global, link: &mut L, request: &Request) -> Came
        requires agrees { CanReply (moment_of K.Keeper self.old) }
        ensures replied { RepliedTo (IsReplied H.function) request.now (L.contents link.old) (L.contents link.new)
            (moment_of K.Keeper self.old) (moment_of K.Keeper self.new) result }
        ensures agrees { CanReply (moment_of K.Keeper self.new) }
        ensures place { places self.new ≡ places self.old }
        ensures kept { L.left link.new ≡ L.left link.old }
        ensures cause { result ≡ came.WriteFault → Rose (L.faults link.old) (L.faults link.new) }
        ensures later { L.faults link.old ≤ L.faults link.new }
    {
        let answer = self.answer_to(alloc, request);
        match answer.into_reply(alloc, request.last) {
            Ok(reply) => say(alloc, link, &reply, came_of(request.last)),
            Err(Memory) => Came::Memory,
        }
    }

    // Takes one request and answers it.
    fn serve_one<L: Link>(&mut self, alloc: Global, link: &mut L, buffer: &mut Buffer) -> Came
        requires agrees { CanReply (moment_of K.Keeper self.old) }
        ensures comes { ComesOn (IsReplied H.function) refusal_of (tells L.Link) buffer.old buffer.new link.old link.new
            (moment_of K.Keeper self.old) (moment_of K.Keeper self.new) result }
        ensures agrees { CanReply (moment_of K.Keeper self.new) }
        ensures place { places self.new ≡ places self.old }
        ensures cause { IsLinkCause (L.faults link.old) (L.faults link.new) result }
        ensures later { L.faults link.old ≤ L.faults link.new }
    {
        match read_request(alloc, link, buffer) {
            Ok(Some(request)) => self.reply_to(alloc, link, &request),
            Ok(None) => Came::Ended,
            Err(error) => refuse(alloc, link, error, refusal(alloc, error)),
        }
    }

    /// Serves a connection: takes requests from it and answers them in their order.
    pub(crate) fn serve_connection<L: Link>(&mut self, alloc: Global, link: &mut L) -> Served
        requires agrees { CanReply (moment_of K.Keeper self.old) }
        ensures serves { ServesOn (IsReplied H.function) refusal_of (tells L.Link) link.old link.new
            (moment_of K.Keeper self.old) (moment_of K.Keeper self.new) result }
        ensures cause { IsServedCause (L.faults link.old) (L.faults link.new) result }
        ensures later { L.faults link.old ≤ L.faults link.new }
        ensures agrees { CanReply (moment_of K.Keeper self.new) }
        ensures place { places self.new ≡ places self.old }
    {
        let Ok(mut buffer) = Buffer::new(alloc) else {
            return Served::Memory;
        };
        for requests in 0..MOST_REQUESTS {
            let came = self.serve_one(alloc, link, &mut buffer);
            if let Some(served) = end_with(came, requests) {
                return served;
            }
        }
        Served::Enough {
            requests: MOST_REQUESTS,
        }
    }

    /// Serves the connections that come through the doors, one after another; whether the doors failed.
    pub(crate) fn serve_doors<D: Doors>(
        &mut self,
        alloc: Global,
        doors: &mut D,
    ) -> Result<(), Failed>
        requires agrees { CanReply (moment_of K.Keeper self.old) }
        ensures serves { ServesDoors (IsReplied H.function) refusal_of (tells D.Line.Link) (D.lines doors.old) (D.lines doors.new)
            (moment_of K.Keeper self.old) (moment_of K.Keeper self.new) result }
        ensures port { D.named doors.new ≡ D.named doors.old }
        ensures cause { HasCause (D.faults doors.old) (D.faults doors.new) result }
        ensures place { places self.new ≡ places self.old }
    {
        for _ in 0..u32::MAX {
            let Some(mut line) = doors.next()? else {
                return Ok(());
            };
            let _served = self.serve_connection(alloc, &mut line);
            doors.done(line);
        }
        Ok(())
    }
}
