ghost use Rattle.std.specs.Prelude.{◌≡◌, ◌≤◌, IfSome, map, string_bytes};
ghost use Rattle.dv_desk.specs.ServeWords as spec;

use dv_given::{WORKERS, number_in, value_behind, workers_in};

/// What the words behind `serve` say: the port, and how many workers load a window.
#[derive(Clone, Copy)]
pub struct ServeWords {
    pub port: u16,
    pub workers: u32,
}

const MOST_PORT: u32 = 65_535;

// The port that a word says.
fn port_in(word: &str) -> Option<u16>
    ensures { result ≡ spec.port_in word.now }
{
    let port = number_in(MOST_PORT, word.as_bytes())?;
    Some(port as u16)
}

// The number of workers that words say: an option with its value in one word, or in two.
fn workers_said(words: &[String]) -> Option<u32>
    ensures workers { result ≡ spec.workers_said (map string_bytes words.now) }
    ensures some { IfSome result (λ workers. 1 ≤ workers) }
    ensures most { IfSome result (λ workers. workers ≤ 64) }
{
    match words {
        [] => Some(WORKERS),
        [word] => workers_in(value_behind(b"--workers=", word.as_bytes())?),
        [name, word] if name.as_str() == "--workers" => workers_in(word.as_bytes()),
        _ => None,
    }
}

/// What the words behind `serve` say; none exactly where they aren't one decimal number from 1 to 65,535, and then
/// perhaps the workers, as `--workers N` or `--workers=N` with a number from 1 to 64, each without sign or leading zero.
/// Takes no memory.
pub fn serve_words(words: &[String]) -> Option<ServeWords>
    ensures words { result ≡ spec.serve_words (map string_bytes words.now) }
    ensures some { IfSome result (λ said. 1 ≤ said.workers) }
    ensures most { IfSome result (λ said. said.workers ≤ 64) }
{
    let [word, behind @ ..] = words else {
        return None;
    };
    let port = port_in(word.as_str())?;
    let workers = workers_said(behind)?;
    Some(ServeWords { port, workers })
}
