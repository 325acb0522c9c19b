//! Single passes over the windows of a network's items.
ghost use Rattle.std.specs.Prelude.{◌≡◌, ℕ, ◌<◌, ◌≤◌, Some, length, MatchOption};
ghost use Rattle.items.specs.Items.{item_at};
ghost use Rattle.tables.specs.Demands.{Span, span};
ghost use Rattle.consult.specs.Chains.{link};
ghost use Rattle.consult.specs.Windows.{front, span_of, spans_of};
ghost use Rattle.settle.specs.Answers.{AllAnswered, LowestNone};
ghost use Rattle.consult.specs.Answers.{answer};
ghost use Rattle.settle.specs.Passes.{Narrow, head_window, after, lead_after, window_by, Renewed, Led, Differs, Marked};

use consult::network::Network;
use consult::window::Window;
use service::{Response, Rule};

/// The lowest of the first `count` places that has no worst response.
pub(crate) fn lowest_unbounded(answers: &[Response; 256], count: usize) -> Option<usize>
    requires { count ≤ 256 }
    ensures { MatchOption result (AllAnswered answers.now count) (LowestNone answers.now count) }
{
    answers[..count]
        .iter()
        .position(|answer| answer.worst.is_none())
}

/// The window of a head.
fn window_of_head(delay: u32) -> Window
    requires { delay ≤ 10000000 }
    ensures { span_of result ≡ head_window delay }
{
    Window {
        open: 0,
        close: u64::from(delay),
    }
}

/// The window after that of a predecessor.
fn window_after(before: Window, answer: Response) -> Window
    requires { Narrow (after (span_of before) answer) }
    ensures { span_of result ≡ after (span_of before) answer }
{
    Window {
        open: before.open + u64::from(answer.least),
        close: before.close + u64::from(answer.worst.unwrap_or(0)),
    }
}

/// The first window of an item that follows.
fn window_leading(before: Window, answer: Response) -> Window
    requires { Narrow (lead_after (span_of before) answer) }
    ensures { span_of result ≡ lead_after (span_of before) answer }
{
    let open = before.open + u64::from(answer.least);
    Window { open, close: open }
}

#[tactic(auto, using(crate::proofs::Followers::link_low))]
/// The window of the item at a place: a head's own, or that after its predecessor's.
fn window_at<R: Rule, F: Fn(Window, Response) -> Window>(
    network: &Network<R>,
    windows: &[Window; 256],
    answers: &[Response; 256],
    at: usize,
    after: F,
) -> Window
    requires within { at < length network.now.items.now }
    requires ready { (j : ℕ) (w : Window) → link network.now.links at ≡ Some j → span_of w ≡ span (spans_of windows.now) j → F.pre after w (answer answers.now j) }
    ensures { (f : Span → Response → Span) → ((w : Window) (a : Response) (v : Window) → F.post after w a v → span_of v ≡ f (span_of w) a) → span_of result ≡ window_by f network.now.items.now (spans_of windows.now) answers.now at }
{
    match network.links[at] {
        Some(link) => {
            let place = usize::from(link);
            after(windows[place], answers[place])
        }
        None => window_of_head(network.items[at].delay),
    }
}

/// The windows after a sweep, all from one table, in the front of `next`.
pub(crate) fn renew_windows<R: Rule>(
    network: &Network<R>,
    windows: &[Window; 256],
    answers: &[Response; 256],
    next: &mut [Window; 256],
)
    requires { (k : ℕ) → k < length network.now.items.now → Narrow (window_by after network.now.items.now (spans_of windows.now) answers.now k) }
    ensures long { length next.new ≡ 256 }
    ensures renewed { Renewed network.now.items.now (spans_of windows.now) answers.now (spans_of next.new) }
{
    // By index: the library says nothing of what is written through an adapter of `iter_mut`.
    for at in 0..network.items.len() {
        next[at] = window_at(network, windows, answers, at, window_after);
    }
}

/// The windows of the first table, each from an earlier one, in the front of `windows`.
pub(crate) fn lead<R: Rule>(
    network: &Network<R>,
    answers: &[Response; 256],
    windows: &mut [Window; 256],
)
    requires { (k : ℕ) → k < length network.now.items.now → (answer answers.now k).least ≤ 20000000 }
    ensures long { length windows.new ≡ 256 }
    ensures led { Led network.now.items.now answers.now (spans_of windows.new) (length network.now.items.now) }
{
    // By index: a window needs the windows before it, which a loop over `windows.iter_mut()` borrows.
    for at in 0..network.items.len() {
        windows[at] = window_at(network, windows, answers, at, window_leading);
    }
}

/// Whether one of the first `count` windows differs.
pub(crate) fn altered(windows: &[Window; 256], next: &[Window; 256], count: usize) -> bool
    requires { count ≤ 256 }
    ensures { Differs (front count windows.now) (front count next.now) result }
{
    windows[..count].iter().zip(&next[..count]).any(|(old, new)| old.open != new.open
        || old.close != new.close)
}

/// The resources of the items whose windows differ in length, marked, the first resource first.
pub(crate) fn stale_resources<R: Rule>(
    network: &Network<R>,
    windows: &[Window; 256],
    next: &[Window; 256],
) -> [bool; 16]
    ensures { Marked network.now.items.now (spans_of windows.now) (spans_of next.now) result (length network.now.items.now) }
{
    let mut stale = [false; 16];
    for (at, item) in network.items.iter().enumerate() {
        if windows[at].jitter() != next[at].jitter() {
            stale[usize::from(item.resource) - 1] = true;
        }
    }
    stale
}
