// The first bytes of a segment.
ghost use Rattle.std.specs.Prelude.{◌≡◌, true, false, drop, MatchOption};
ghost use Rattle.nn_segment.specs.Segment.{header, has_header};

/// How many bytes the header has.
pub(crate) const HEADER_LEN: usize = 8;

/// The header of a segment of this layout: the layout, a signed number with the highest byte first, and four zero
/// bytes, where newer layouts of Hadoop have flags (`EditLogFileOutputStream.writeHeader`).
#[tactic(auto, unfolding(crate::specs::Segment::header))]
pub fn header_put(layout: i32) -> [u8; 8]
    ensures { result ≡ header layout }
{
    let [a, b, c, d] = layout.to_be_bytes();
    [a, b, c, d, 0, 0, 0, 0]
}

/// What stands behind the header, if a segment begins with that of this layout.
pub fn records_in(bytes: &[u8], layout: i32) -> Option<&[u8]>
    ensures { MatchOption result (has_header bytes.now layout ≡ false) (λ records. (has_header bytes.now layout ≡ true) × (records.now ≡ drop 8 bytes.now)) }
{
    if !has_header(bytes, layout) {
        return None;
    }
    Some(&bytes[HEADER_LEN..])
}

#[tactic(auto, unfolding(crate::specs::Segment::has_header))]
fn has_header(bytes: &[u8], layout: i32) -> bool
    ensures { result ≡ has_header bytes.now layout }
{
    bytes.starts_with(&header_put(layout))
}
