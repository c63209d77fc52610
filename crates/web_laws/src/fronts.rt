//! What a request is read as doesn't depend on how its bytes were cut.
ghost use Rattle.std.specs.Prelude.{◌≡◌, ◌++◌, IsTrue};
ghost use Rattle.web_laws.specs.Fronts.{is_settled};
ghost use Rattle.web_requests.specs.Reading.{ReadsAs};
ghost use Rattle.web_requests.specs.declared.read.Read.{Read};

/// The bytes of a request are read as one thing.
pub fn bytes_have_one_reading(bytes: &[u8])
    ensures one { (first second : Read) → ReadsAs bytes.now first → ReadsAs bytes.now second → first ≡ second }
{}

/// An ask or a fault that a front of the bytes is read as stands, whatever bytes follow: so any front
/// of a request is read as more, or as the same.
pub fn front_reads_the_same(front: &[u8], more: &[u8])
    ensures stands { (read : Read) → ReadsAs front.now read → IsTrue (is_settled read)
        → ReadsAs (front.now ++ more.now) read }
{}
