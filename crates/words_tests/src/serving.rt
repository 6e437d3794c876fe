//! The words of a server, and the book before them.

use crate::words::split;
use command_words::{Serve, book_and_words, serve_words};

#[test]
fn serves_by_its_four_words(rt: HostRuntime) {
    let rows = [
        ("serve 1 1 1", 1, 1, 1),
        ("serve 65535 32 1000000", 65_535, 32, 1_000_000),
    ];
    for (line, port, workers, connections) in rows {
        let wanted = Serve {
            port,
            workers,
            connections,
        };
        assert!(rt;
            serve_words(&split(&rt, rt.alloc(), line)) == Some(wanted),
            "{line}"
        );
    }
    let others = [
        "",
        "serve",
        "serve 1 1",
        "serve 1 1 1 1",
        "server 1 1 1",
        "serve 0 1 1",
        "serve 65536 1 1",
        "serve 1 0 1",
        "serve 1 33 1",
        "serve 1 1 0",
        "serve 1 1 1000001",
        "serve 080 1 1",
        "serve +80 1 1",
        "assess 1 1 1",
    ];
    for line in others {
        assert!(rt;
            serve_words(&split(&rt, rt.alloc(), line)) == None,
            "{line}"
        );
    }
}

#[test]
fn takes_the_book_off_the_front(rt: HostRuntime) {
    let rows = [
        (
            "--book a/b.db due 2024-09-03",
            Some("a/b.db"),
            "due 2024-09-03",
        ),
        ("--book --book assess", Some("--book"), "assess"),
        ("--book", None, "--book"),
        ("assess", None, "assess"),
        ("assess --book b", None, "assess --book b"),
        ("-book b assess", None, "-book b assess"),
    ];
    for (line, book, others) in rows {
        let words = split(&rt, rt.alloc(), line);
        let wanted = split(&rt, rt.alloc(), others);
        let (found, left) = book_and_words(&words);
        assert!(rt; found == book, "{line}");
        assert!(rt; left == wanted.as_slice(), "{line}");
    }
    let path_alone = split(&rt, rt.alloc(), "--book b");
    let (found, left) = book_and_words(&path_alone);
    assert!(rt; found == Some("b") && left.is_empty());
}
