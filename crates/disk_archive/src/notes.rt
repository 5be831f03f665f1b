//! The note of an archive's journal: it has the archive's settings, before any other page is read.

ghost use Rattle.std.specs.Prelude.{◌≡◌};
ghost use Rattle.disk_archive.specs.Notes.{note_octets};

use archive_pages::Settings;

/// The note of an archive that was made with these settings, and a write-once disk of `blocks` blocks.
#[tactic(auto, unfolding(crate::specs::Notes::note_octets))]
pub(crate) fn note_for(blocks: u64, settings: Settings) -> [u8; 11]
    ensures note { result ≡ note_octets blocks settings }
{
    let b = blocks.to_be_bytes();
    let r = settings.ring.to_be_bytes();
    [
        b[0],
        b[1],
        b[2],
        b[3],
        b[4],
        b[5],
        b[6],
        b[7],
        settings.collectors,
        r[0],
        r[1],
    ]
}
