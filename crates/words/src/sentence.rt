// Refusals that name no element, in words.
use listing::Refusal;

// The sentence of a refusal.
pub fn of(why: Refusal) -> &'static str {
    match why {
        Refusal::OverRanks => "more than 16 ranks",
        Refusal::OverElements => "more than 4,096 elements",
        Refusal::OverIncidences => "more than 32,768 incidences",
        Refusal::SeveralParts => "closed, but in separate parts",
        Refusal::LeftInvalid => "the left factor is not valid",
        Refusal::RightInvalid => "the right factor is not valid",
        Refusal::CombOfPoint => "not built: a duocomb of a point",
        Refusal::ProductRanks => "the product would have more than 16 ranks",
        Refusal::ProductElements => "the product would have more than 4,096 elements",
        Refusal::ProductIncidences => "the product would have more than 32,768 incidences",
        Refusal::OutputShort => "too little room for the listing",
        Refusal::WrongKey => "a line does not begin with its key",
        Refusal::BadLine => "after its key a line is not as it should be",
        Refusal::LongText => "more than 65,536 bytes of text",
        Refusal::MoreBytes => "the text goes on after its last line",
        Refusal::BytesShort => "too little room for the text",
        _ => "refused",
    }
}
