ghost use Rattle.std.specs.Prelude.{◌≡◌, None, IfOk, IfSome, IsSome, OnErr};
ghost use Rattle.dv_text.specs.Causes.{HasCause};
ghost use Rattle.dv_outside.specs.Lines.{GivesNext, MayTakeBack};
ghost use Rattle.dv_outside.specs.RealLinks.{real_doors_faults, real_doors_lines, real_doors_port};

use crate::doors::Doors;
use crate::folders::Failed;
use crate::real_links::RealLink;
use std::net::{Ipv4Addr, Net, SocketAddr, TcpListener, TcpStream};
use std::thread::sleep;
use std::time::{Clock, Duration};

/// How often the next connection is asked for in one call of `next`. The system may refuse one for a reason
/// that passes, as where too many files are open or a client has gone.
const MOST_TRIES: u32 = 50;

/// The pause behind each refusal, in milliseconds.
const PAUSE_MILLIS: u64 = 100;

/// A listener on 127.0.0.1, which is opened at the first call of `next`. It tells nothing of the
/// connections, and counts its faults: each `next` without a port or a listener, or that gave no connection.
#[derive(Drop)]
pub struct RealDoors<R> {
    rt: R,
    port: Option<u16>,
    listener: Option<TcpListener>,
    faults: u64,
}

impl<R> RealDoors<R> {
    /// The doors with no port yet, and no faults.
    pub fn new(rt: R) -> RealDoors<R>
        ensures port { real_doors_port result ≡ None }
        ensures faults { real_doors_faults result ≡ 0 }
    {
        RealDoors {
            rt,
            port: None,
            listener: None,
            faults: 0,
        }
    }
}

impl<R: Net<Listener = TcpListener, Stream = TcpStream> + Clock> RealDoors<R> {
    // Opens the listener where it is not open, and answers whether it is.
    pub(crate) fn open(&mut self) -> bool
        ensures port { real_doors_port self.new ≡ real_doors_port self.old }
        ensures faults { real_doors_faults self.new ≡ real_doors_faults self.old }
    {
        if let (None, Some(port)) = (&self.listener, self.port) {
            let place = SocketAddr::from((Ipv4Addr::LOCALHOST, port));
            self.listener = TcpListener::bind(&self.rt, place).ok();
        }
        self.listener.is_some()
    }

    // The next connection; none without a listener, or where the system refuses it each time.
    fn accept(&self) -> Option<RealLink> {
        let listener = self.listener.as_ref()?;
        for _ in 0..MOST_TRIES {
            if let Ok(line) = RealLink::accept(listener) {
                return Some(line);
            }
            sleep(&self.rt, Duration::from_millis(PAUSE_MILLIS));
        }
        None
    }
}

impl<R: Net<Listener = TcpListener, Stream = TcpStream> + Clock> Doors for RealDoors<R> {
    type Line = RealLink;

    ghost lines = { real_doors_lines };

    ghost named = { real_doors_port };

    ghost faults = { real_doors_faults };

    fn listen(&mut self, port: u16) {
        self.port = Some(port);
    }

    fn next(&mut self) -> Result<Option<RealLink>, Failed>
        ensures ok { IfOk result (λ line. GivesNext (real_doors_lines self.old) (real_doors_lines self.new) line) }
        ensures owed { IfOk result (λ line. IfSome line (λ _. MayTakeBack (real_doors_lines self.new))) }
        ensures err { OnErr result (real_doors_lines self.new ≡ real_doors_lines self.old) }
        ensures port { real_doors_port self.new ≡ real_doors_port self.old }
        ensures cause { HasCause (real_doors_faults self.old) (real_doors_faults self.new) result }

        // A port has no last connection.
        ensures some { IfOk result (λ line. IsSome line) }
    {
        if self.open()
            && let Some(line) = self.accept()
        {
            return Ok(Some(line));
        }
        self.faults = self.faults.saturating_add(1);
        Err(Failed)
    }

    fn done(&mut self, line: RealLink) {
        line.close(&self.rt);
    }
}
