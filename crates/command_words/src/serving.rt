//! The words of `serve`.

ghost use Rattle.std.specs.Prelude.{◌≡◌, map, string_bytes};
ghost use Rattle.command_words.specs.Words.{serve_in, serving};

use numerals::plain_number_between;

/// What the program is asked to serve.
#[derive(Clone, Copy, Debug, PartialEq, Eq)]
pub struct Serve {
    /// The port on 127.0.0.1, from 1.
    pub port: u16,
    /// How many links are served side by side, from 1 to 32.
    pub workers: u32,
    /// How many links are served in all, from 1 to 1,000,000.
    pub connections: u32,
}

/// What the words ask to serve. It takes no memory.
pub fn serve_words(words: &[String]) -> Option<Serve>
    ensures { result ≡ serve_in (map string_bytes words.now) }
{
    match words {
        [name, port, workers, connections] => {
            serving(
                name.as_str(),
                port.as_str(),
                workers.as_str(),
                connections.as_str(),
            )
        }
        _ => None,
    }
}

fn serving(name: &str, port: &str, workers: &str, connections: &str) -> Option<Serve>
    ensures { result ≡ serving name.now port.now workers.now connections.now }
{
    if name != "serve" {
        return None;
    }
    let port = plain_number_between(port.as_bytes(), 1, 65_535)?;
    let workers = plain_number_between(workers.as_bytes(), 1, 32)?;
    let connections = plain_number_between(connections.as_bytes(), 1, 1_000_000)?;
    Some(Serve {
        port: port as u16,
        workers,
        connections,
    })
}
