// Figures over a whole test campaign (ticket 11): a case file on standard input, five lines on standard output, and a sixth where
// a malformed record or the number of records ended the reading. What is read and counted for a record is `figures::figures_next`,
// and what moves the bytes is `pipes`. Where a read or a write fails, standard error says so and no figures are told.
#![tactic(auto)]

use epa_stores::Stores;
use figures::{Counted, Figures, Stop};
use pipes::{End, Run};
use window::Window;

// `figures` counts no more than 4,294,967,295 records; the loop goes one further, to see whether a byte follows.
const MOST_TURNS: u64 = 4_294_967_296;

// A run that goes on: the window on the file, and the figures of the records before it.
#[derive(Clone, Copy)]
struct Campaign {
    window: Window,
    figures: Figures,
}

// Why it does not go on.
#[derive(Clone, Copy)]
enum Ended {
    // No more is read.
    Over(Figures, Stop),
    // A read failed.
    Failed,
}

fn main(rt: HostRuntime) {
    let mut input = [0u8; 65_536];
    let mut out = [0u8; 65_536];
    let mut vertices = [0.0f32; 945];
    let mut ids = [0usize; 6000];
    let mut floats = [0.0f32; 6000];
    let mut deleted = [0u8; 1000];
    let mut edges = [0usize; 412];
    let mut heap_ids = [0usize; 1000];
    let mut heap_keys = [0.0f32; 1000];
    let mut pending = [0usize; 412];
    let mut stores = Stores {
        vertices: &mut vertices,
        ids: &mut ids,
        floats: &mut floats,
        deleted: &mut deleted,
        edges: &mut edges,
        heap_ids: &mut heap_ids,
        heap_keys: &mut heap_keys,
        pending: &mut pending,
    };
    let mut campaign = Campaign {
        window: pipes::start(),
        figures: figures::none(),
    };
    for n in 0..MOST_TURNS {
        let next = turn(&rt, campaign, n + 1, &mut input, &out, &mut stores);
        match next {
            Ok(open) => campaign = open,
            Err(end) => {
                finish(&rt, end, &mut out);
                return;
            }
        }
    }
    tell(&rt, campaign.figures, Stop::File, &mut out);
}

// The record `number` is counted, where there is one. Nothing is written before the end.
// Inlined like `figures_next`, and for its reason.
#[inline(always)]
fn turn(
    rt: &HostRuntime,
    campaign: Campaign,
    number: u64,
    input: &mut [u8],
    out: &[u8],
    stores: &mut Stores<'_>,
) -> Result<Campaign, Ended> {
    let given = Run {
        window: campaign.window,
        place: 0,
    };
    let ready = pipes::make_ready(&mut rt.stdin(), &mut rt.stdout(), Ok(given), input, out);
    match ready {
        Err(End::Done(_)) => Err(Ended::Over(campaign.figures, Stop::File)),
        Err(End::Failed(_)) => Err(Ended::Failed),
        Ok(Run { window, place: _ }) => {
            let answer = figures::figures_next(
                &input[..window.until],
                window.from,
                window.base,
                number,
                campaign.figures,
                stores,
            );
            match answer {
                Ok(Counted { next, figures }) => Ok(Campaign {
                    window: Window {
                        from: next,
                        ..window
                    },
                    figures,
                }),
                Err(stop) => Err(Ended::Over(campaign.figures, stop)),
            }
        }
    }
}

fn finish(rt: &HostRuntime, end: Ended, out: &mut [u8]) {
    match end {
        Ended::Over(figures, stop) => tell(rt, figures, stop, out),
        Ended::Failed => pipes::complain(&mut rt.stderr(), b"campaign: a read failed\n"),
    }
}

fn tell(rt: &HostRuntime, figures: Figures, stop: Stop, out: &mut [u8]) {
    let Ok(end) = figures::write_campaign(out, 0, figures, stop) else {
        return;
    };
    if pipes::flushed(&mut rt.stdout(), out, end).is_err() {
        pipes::complain(&mut rt.stderr(), b"campaign: a write failed\n");
    }
}
