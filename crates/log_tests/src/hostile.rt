//! Values with any bytes: each line stays one line, and is read as what was noted.

use crate::logfmt::{check, check_row, line_of};
use gu_log::{Beginning, LONGEST_LINE, Listener};

/// Paths, and how the log writes them.
const PATHS: &[(&str, &str)] = &[
    ("E\"1=", "\"E\\\"1=\""),
    ("", "\"\""),
    (" ", "\" \""),
    ("a=b", "\"a=b\""),
    ("a\\b", "\"a\\\\b\""),
    ("\\", "\"\\\\\""),
    ("\"", "\"\\\"\""),
    ("\n", "\"\\x0A\""),
    ("\r\n", "\"\\x0D\\x0A\""),
    ("\0\u{1f}", "\"\\x00\\x1F\""),
    ("\u{7f}\u{ff}", "\"\\x7F\\xC3\\xBF\""),
    ("a\nday.closed entries=0", "\"a\\x0Aday.closed entries=0\""),
    (
        "!#$%&'()*+,-./:;<>?@[]^_`{|}~",
        "!#$%&'()*+,-./:;<>?@[]^_`{|}~",
    ),
    ("\\x0A", "\"\\\\x0A\""),
];

#[test]
fn a_line_is_one_line_whatever_a_path_has(rt: HostRuntime) {
    for (path, value) in PATHS {
        let text = format!(in rt.alloc(); "listening at=watch path={value}");
        check(
            &rt,
            &Beginning::Listening(Listener::Watch(path)),
            &text.expect(&rt, "memory"),
            &[("at", b"watch"), ("path", path.as_bytes())],
        );
    }
}

#[test]
fn a_path_may_have_any_bytes(rt: HostRuntime) {
    check(
        &rt,
        &Beginning::Listening(Listener::Console("/run/the desk/\u{e9} \"1\"=\n")),
        "listening at=console path=\"/run/the desk/\\xC3\\xA9 \\\"1\\\"=\\x0A\"",
        &[
            ("at", b"console"),
            ("path", b"/run/the desk/\xC3\xA9 \"1\"=\n"),
        ],
    );
}

#[test]
fn each_character_is_read_as_it_was_noted(rt: HostRuntime) {
    for byte in 0..=255_u8 {
        let path = format!(in rt.alloc(); "a{}z", char::from(byte)).expect(&rt, "memory");
        let event = Beginning::Listening(Listener::Console(&path));
        let line = line_of(rt.alloc(), &event).expect(&rt, "memory");
        check_row(
            &rt,
            rt.alloc(),
            &line,
            "listening",
            &[("at", b"console"), ("path", path.as_bytes())],
        );
    }
}

#[test]
fn a_long_path_is_cut(rt: HostRuntime) {
    let path = "/".repeat(rt.alloc(), 1_024).expect(&rt, "memory");
    let text = format!(in rt.alloc(); "listening at=watch path={path}").expect(&rt, "memory");
    check(
        &rt,
        &Beginning::Listening(Listener::Watch(&path)),
        &text,
        &[("at", b"watch"), ("path", path.as_bytes())],
    );
    let longer = format!(in rt.alloc(); "{path}/").expect(&rt, "memory");
    let text = format!(in rt.alloc(); "listening at=watch path=\"{path}..\"").expect(&rt, "memory");
    let shown = format!(in rt.alloc(); "{path}..").expect(&rt, "memory");
    check(
        &rt,
        &Beginning::Listening(Listener::Watch(&longer)),
        &text,
        &[("at", b"watch"), ("path", shown.as_bytes())],
    );
}

#[test]
fn the_longest_line_has_its_two_paths(rt: HostRuntime) {
    let path = "\n".repeat(rt.alloc(), 5_000).expect(&rt, "memory");
    let opened = Beginning::DayOpened {
        reference: &path,
        day: None,
        entries: u64::MAX,
        journal: Some(&path),
    };
    let line = line_of(rt.alloc(), &opened).expect(&rt, "memory");
    assert!(rt; line.len() < LONGEST_LINE);
    let short = "\n".repeat(rt.alloc(), 256).expect(&rt, "memory");
    let shown = format!(in rt.alloc(); "{short}..").expect(&rt, "memory");
    check_row(
        &rt,
        rt.alloc(),
        &line,
        "day.opened",
        &[
            ("reference", shown.as_bytes()),
            ("entries", b"18446744073709551615"),
            ("journal", shown.as_bytes()),
        ],
    );
}
