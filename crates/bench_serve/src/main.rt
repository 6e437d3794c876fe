//! What `bench/serve` compares with: a server that cuts messages as the office's does, and answers each with one text. Its words
//! are a port and how many links it serves; without words it says so.
#![tactic(auto)]

use http_messages::Message;
use http_responses::{Body, Reply, Status};
use http_session::{Desk, session_over};
use office_links::{Accepted, Listener, TcpLinks};
use plain_data::Text;
use std::alloc::Global;
use std::env;
use std::process::ExitCode;

const ANSWER: &[u8] = b"{\"household\":1,\"live\":[1],\"name\":\"Ada Reed\",\"newest\":1}";

/// A desk that answers every message with the same text.
#[derive(Drop)]
struct Fixed {
    book: u32,
}

impl Desk for Fixed {
    ghost use Rattle.std.specs.Prelude.{◌≡◌, ⊤};

    ghost in_order = { λ desk. ⊤ };

    ghost answers = { λ desk message reply desk_now. reply.point ≡ desk.book };

    ghost gives_up = { λ desk message desk_now. ⊤ };

    ghost follows = { λ desk desk_now. desk_now ≡ desk };

    ghost point = { λ desk. desk.book };

    fn answer(&mut self, alloc: Global, _message: &Message) -> Option<Reply> {
        Some(Reply {
            status: Status::Okay,
            point: self.book,
            body: Body::Text(Text::new(ANSWER.to_vec(alloc).ok()?)),
        })
    }

    fn seen(&self) -> u32 {
        self.book
    }

    ghost use Rattle.std.proofs.Common.{rules};

    ghost stays = { Prim.search rules };

    ghost joins = { Prim.search rules };
}

fn main(rt: HostRuntime) -> ExitCode {
    match run(&rt) {
        Some(()) => ExitCode::SUCCESS,
        None => ExitCode::FAILURE,
    }
}

fn run(rt: &HostRuntime) -> Option<()> {
    let words: Vec<String> = env::args(rt).ok()?.skip(1).collect(rt.alloc()).ok()?;
    match words.as_slice() {
        [] => println!(rt; "usage: bench_serve PORT LINKS").ok(),
        [port, links] => serve(rt, port.parse().ok()?, links.parse().ok()?),
        _ => None,
    }
}

/// Serves so many links, one after another.
fn serve(rt: &HostRuntime, port: u16, links: u32) -> Option<()> {
    let mut listener = TcpLinks::bind(rt, port, links).ok()?;
    let mut desk = Fixed { book: 5 };
    for _ in 0..links {
        let Accepted::Link(mut source, mut sink) = listener.accept() else {
            return None;
        };
        let _ = session_over(rt.alloc(), &mut desk, &mut source, &mut sink);
        listener.done(source, sink);
    }
    Some(())
}
