// Readings by byte planes.
ghost use Rattle.std.specs.Prelude.{◌≡◌};
ghost use Rattle.planes.specs.Step.{step_answer, to_planes_left, from_planes_left, planes_number};

// The readings of a payload as planes.
#[unsafe(no_mangle)]
pub extern "C" fn mrecordlog_to_planes(payload: &[u8], width: u64, target: &mut [u8]) -> u64
    ensures { (result ≡ planes_number (step_answer width payload.now target.old))
        × (target.new ≡ to_planes_left width payload.now target.old) }
{
    planes::number(planes::to_planes(payload, width, target))
}

// The readings that a payload of planes holds.
#[unsafe(no_mangle)]
pub extern "C" fn mrecordlog_from_planes(payload: &[u8], width: u64, target: &mut [u8]) -> u64
    ensures { (result ≡ planes_number (step_answer width payload.now target.old))
        × (target.new ≡ from_planes_left width payload.now target.old) }
{
    planes::number(planes::from_planes(payload, width, target))
}
