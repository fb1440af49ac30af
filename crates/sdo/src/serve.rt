// A request as a whole: its reply, what it changes, and the upload after it.
ghost use Rattle.std.specs.Prelude.{◌≡◌, true, ◌≤◌};
ghost use Rattle.model.specs.Dictionary as Table;
ghost use Rattle.model.specs.Parts.{id_of};
ghost use Rattle.model.specs.Rules.{rule_upload};
ghost use Rattle.model.specs.Sdo as Sdo;
ghost use Rattle.sdo.specs.Serve.{Ready, IsServed, told, written};

use super::reply::Named;
use super::segment::{open_index, opened, segment_reply, segment_sent, sends_segment};
use dictionary::abort::AbortCode;
use dictionary::objects::find;
use dictionary::write::checked_write;
use model::{Change, Frame, NO_UPLOAD, SdoRequest, State, Upload};

// What a request comes to, the upload apart: what it changes, and its reply.
#[derive(Clone, Copy)]
pub struct Served {
    pub change: Change,
    pub reply: Option<Frame>,
}

// The upload after a request: only the next segment keeps an open one, and only a read of the name opens one.
#[tactic(auto, unfolding(model::specs::Sdo::upload_after, model::specs::Rules::rule_upload))]
pub fn upload_after(request: SdoRequest, s: State) -> Upload
    requires { rule_upload s ≡ true }
    ensures { result ≡ Sdo.upload_after request s.core.upload }
{
    let u = s.core.upload;
    match request {
        SdoRequest::Upload { index, sub } => opened(index, sub),
        SdoRequest::UploadSegment { toggle } if sends_segment(toggle, u) => segment_sent(u),
        _ => NO_UPLOAD,
    }
}

// Nothing changes, and this is the reply.
fn told(reply: Option<Frame>) -> Served
    ensures { result ≡ told reply }
{
    Served {
        change: Change::Keep,
        reply,
    }
}

impl Named {
    // A write. It is checked once, and the answer gives both the change and the reply. Where it is refused nothing changes.
    fn write(&self, size: Option<u8>, d: u32) -> Served
        ensures { let at = self.now in result ≡ written (Sdo.checked_write (Table.find at.index at.sub) size d at.state) at.index at.sub at.state }
    {
        let checked = checked_write(find(self.index, self.sub), size, d, self.state).map_err(
            u32::from,
        );
        let frame = self.write_reply(checked);
        Served {
            change: checked.unwrap_or(Change::Keep),
            reply: Some(frame),
        }
    }
}

// A request: what it changes, and its reply. A client's abort has none.
#[tactic(auto, unfolding(model::specs::Sdo::sdo_change, model::specs::Sdo::sdo_reply))]
pub fn serve(request: SdoRequest, s: State) -> Served
    requires { Ready s }
    ensures { IsServed request s result }
{
    let unknown = AbortCode::UnknownCommand.into();
    match request {
        SdoRequest::Download {
            index,
            sub,
            size,
            data,
        } => Named::new(index, sub, s).write(size, data),
        SdoRequest::Upload { index, sub } => {
            told(Some(Named::new(index, sub, s).read_reply(find(index, sub))))
        }
        SdoRequest::UploadSegment { toggle } => told(Some(segment_reply(toggle, s))),
        SdoRequest::ClientAbort => told(None),
        SdoRequest::DownloadSegment => {
            told(Some(Named::new(open_index(s.core.upload), 0, s).aborted(unknown)))
        }
        SdoRequest::Unknown { index, sub } => told(Some(Named::new(index, sub, s).aborted(
            unknown,
        ))),
    }
}
