//! What a command leaves.

ghost use Rattle.std.specs.Prelude.{◌≡◌, None};

use vd_log::history::History;

/// The status of a command, the devices that it was handed, and the history of a run.
#[derive(Drop)]
pub struct End<S, B> {
    /// 0 where the command did its work, else the number of the reason why not.
    pub status: u8,
    pub store: S,
    pub base: B,
    /// None where no guest was served.
    pub history: Option<History>,
}

/// What a command leaves that served no guest.
pub fn unserved<S, B>(status: u8, store: S, base: B) -> End<S, B>
    ensures { result ≡ record { status = status; store = store; base = base; history = None } }
{
    End {
        status,
        store,
        base,
        history: None,
    }
}
