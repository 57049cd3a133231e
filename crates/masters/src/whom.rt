// Whom a frame is for: all of what this station is asked, the writes of what all are, nothing of what another one is.
ghost use Rattle.std.specs.Prelude.{◌≡◌};
ghost use Rattle.masters.specs.Asking.{carried_out, TouchesFor};

use station::Whom;
use table_cells::Touched;
use table_cells::touch::nothing;

// Whether a request that touches in these ways is carried out: a read that is sent to all gets no reply and is not done.
fn is_carried_out(whom: Whom, way: u8) -> bool
    ensures { result ≡ carried_out whom way }
{
    match whom {
        Whom::This => true,
        Whom::All => way & 2 == 2,
        Whom::Other => false,
    }
}

// What is touched of a request that would touch this if it were for this station.
pub(crate) fn for_whom(whom: Whom, own: Touched) -> Touched
    ensures { TouchesFor whom own result }
{
    if is_carried_out(whom, own.way) {
        return own;
    }
    nothing()
}
