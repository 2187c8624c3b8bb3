use crate::{MonitorView, Verdict, decide};

const CALM: MonitorView = MonitorView {
    opened: 1,
    broken: false,
    waiting: 0,
    threshold: 3,
    behind: true,
};

#[test]
fn verdicts_are_as_the_rules_say(rt: HostRuntime) {
    let rows = [
        (CALM, Verdict::Stay),
        (MonitorView { waiting: 2, ..CALM }, Verdict::Stay),
        (MonitorView { waiting: 3, ..CALM }, Verdict::Switch),
        (
            MonitorView {
                waiting: 1_000,
                threshold: 1_000,
                ..CALM
            },
            Verdict::Switch,
        ),
        (
            MonitorView {
                waiting: 3,
                behind: false,
                ..CALM
            },
            Verdict::Stay,
        ),
        (
            MonitorView {
                broken: true,
                ..CALM
            },
            Verdict::Switch,
        ),
        (
            MonitorView {
                broken: true,
                behind: false,
                ..CALM
            },
            Verdict::Stay,
        ),
        (
            MonitorView {
                opened: 9,
                waiting: 3,
                ..CALM
            },
            Verdict::Switch,
        ),
        (
            MonitorView {
                opened: 10,
                waiting: 3,
                ..CALM
            },
            Verdict::Stay,
        ),
        (
            MonitorView {
                opened: 10,
                broken: true,
                ..CALM
            },
            Verdict::Dead,
        ),
        (
            MonitorView {
                opened: 10,
                broken: true,
                behind: false,
                ..CALM
            },
            Verdict::Dead,
        ),
    ];
    for (view, verdict) in rows {
        assert_eq!(rt; decide(&view), verdict);
    }
}
