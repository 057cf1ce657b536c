// One record: whether its text is answered as it says; and one record after another.
ghost use Rattle.std.specs.Prelude.{◌≡◌, ◌≤◌, ◌<◌, length};
ghost use Rattle.tally.specs.Record.{Inside};
ghost use Rattle.tally.specs.Tally.{none, Tally};
ghost use Rattle.config_replay.specs.Record.{field_at, lent, said_agrees, settings_agree, Judges, Steps};

use config::{Misread, config, no_settings};
use encoder_settings::EncoderSettings;
use picture_limits::PictureSettings;
use std::io::Stdout;
use tally::{Counts, Judge, Step, judged, number_at, tally};

// Number i of a record, of five digits with a byte behind them.
fn field(s: &[u8], i: usize) -> usize
    requires { (66 ≤ length s.now) × (i < 11) }
    ensures { (result ≡ field_at s.now i) × (result ≤ 2833305) }
{
    number_at(s, 6 * i)
}

// What config.json does not say.
fn lent_settings() -> EncoderSettings
    ensures { result ≡ lent }
{
    let picture = PictureSettings {
        patch_size: 0,
        spatial_merge_size: 0,
        image_size: 0,
        resize_rule: 1,
        mean: [0.0; 3],
        deviation: [0.0; 3],
    };
    EncoderSettings {
        picture,
        hidden_size: 0,
        num_heads: 0,
        head_dim: 0,
        num_layers: 0,
        intermediate_size: 0,
        text_hidden_size: 0,
        projector_bias: 0,
        scaling: 1.0,
    }
}

// Whether number and place are those of the record.
fn said_agrees(a: Result<EncoderSettings, Misread>, want: &[u8]) -> bool
    requires { 66 ≤ length want.now }
    ensures { result ≡ said_agrees a want.now }
{
    let n = field(want, 1);
    let p = field(want, 2);
    match a {
        Ok(_) => (n == 0) & (p == 0),
        Err(m) => (n == u32::from(m.why) as usize) & (p == m.place),
    }
}

// Whether the eight sizes are those of the record.
fn settings_agree(s: EncoderSettings, want: &[u8]) -> bool
    requires { 66 ≤ length want.now }
    ensures { result ≡ settings_agree s want.now }
{
    let p = s.picture;
    (p.patch_size == field(want, 3))
        & ((p.spatial_merge_size == field(want, 4))
            & ((p.image_size == field(want, 5))
                & ((s.hidden_size == field(want, 6))
                    & ((s.num_heads == field(want, 7))
                        & ((s.num_layers == field(want, 8))
                            & ((s.intermediate_size == field(want, 9))
                                & (s.text_hidden_size == field(want, 10))))))))
}

// Whether a text is answered as the record says.
fn judge(stdout: Stdout, text: &[u8], want: &[u8]) -> bool
    requires { 66 ≤ length want.now }
    ensures { Judges text.now want.now result }
{
    let found = config(lent_settings(), text);
    let settings = found.unwrap_or(no_settings());
    let ok = said_agrees(found, want) & settings_agree(settings, want);
    if !ok {
        let _ = stdout.write_all(b"not answered so: ");
        let _ = stdout.write_all(text);
        let _ = stdout.write_all(b"\n");
    }
    ok
}

// The first record.
pub(crate) fn first(stdout: Stdout, text: &[u8]) -> Step
    ensures { Steps text.now result × Inside text.now result }
{
    if text.len() < 66 {
        return Step::NoRecord;
    }
    let n = field(text, 0);
    if text.len() - 66 < n + 1 {
        return Step::NoRecord;
    }
    let end = 66 + n;
    judged(judge(stdout, &text[66..end], text), end + 1)
}

// The judge of records, and where it writes what is not answered so.
#[derive(Clone, Copy)]
struct Records {
    stdout: Stdout,
}

impl Judge for Records {
    ghost finds = { λ r. Steps };

    fn first(&self, text: &[u8]) -> Step {
        first(self.stdout, text)
    }
}

// One record after another.
pub(crate) fn replay(stdout: Stdout, text: &[u8]) -> Counts
    ensures { Tally Steps none text.now result }
{
    tally(stdout, text, &Records { stdout })
}
