// Numbers at the front of bytes, the highest byte first.
ghost use Rattle.std.specs.Prelude.{◌≡◌, ◌<◌, ◌^◌, ◌++◌, IfSome, Some, option_map};
ghost use Rattle.std.specs.Int.{w16, w32, w64};
ghost use Rattle.nn_record.specs.Spelling.{u16, u32, u64};
ghost use Rattle.nn_record.specs.Reading.{number_at};

#[tactic(auto, unfolding(crate::specs::Reading::number_at))]
pub(crate) fn first_u16(bytes: &[u8]) -> Option<(u16, &[u8])>
    ensures found { IfSome result (λ x. (x.0 < 2 ^ 16) × (bytes.now ≡ u16 x.0 ++ x.1.now)) }
    ensures exact { option_map (λ x. (x.0, x.1.now)) result ≡ number_at w16 bytes.now }
{
    let (number, rest) = bytes.split_first_chunk::<2>()?;
    Some((u16::from_be_bytes(*number), rest))
}

#[tactic(auto, unfolding(crate::specs::Reading::number_at))]
pub(crate) fn first_u32(bytes: &[u8]) -> Option<(u32, &[u8])>
    ensures found { IfSome result (λ x. (x.0 < 2 ^ 32) × (bytes.now ≡ u32 x.0 ++ x.1.now)) }
    ensures exact { option_map (λ x. (x.0, x.1.now)) result ≡ number_at w32 bytes.now }
{
    let (number, rest) = bytes.split_first_chunk::<4>()?;
    Some((u32::from_be_bytes(*number), rest))
}

#[tactic(auto, unfolding(crate::specs::Reading::number_at))]
pub(crate) fn first_u64(bytes: &[u8]) -> Option<(u64, &[u8])>
    ensures found { IfSome result (λ x. (x.0 < 2 ^ 64) × (bytes.now ≡ u64 x.0 ++ x.1.now)) }
    ensures exact { option_map (λ x. (x.0, x.1.now)) result ≡ number_at w64 bytes.now }
{
    let (number, rest) = bytes.split_first_chunk::<8>()?;
    Some((u64::from_be_bytes(*number), rest))
}
