ghost use Rattle.dex_round_trip.specs.Listings.{ListingsReadAgain, EachClassIsReadBack};

use dex_maker::tables_are_short;

/// Where there is a file of a listing, the listing stands in it: its tables, and its classes in their order and under
/// their names. So `read_dex` gives this one value for the bytes that `make_dex` gives, unless memory runs out.
pub fn listings_read_again()
    ensures { ListingsReadAgain }
{
    tables_are_short();
}

/// What is read of a listing's file has a class for each class of the listing.
pub fn each_class_is_read_back()
    ensures { EachClassIsReadBack }
{}
