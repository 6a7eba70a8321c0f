// What the likelihood of a card's records is worked out from.
#![tactic(auto)]

use card_parts::GstRecords;
use likelihood::Weighing;

// A card's records, and how they are weighed.
#[derive(Clone, Copy)]
pub struct WeighedRecords<'a, 'b> {
    pub records: &'a GstRecords<'a>,
    pub weighing: Weighing<'b>,
}
