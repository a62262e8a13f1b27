ghost use Rattle.sf_algebra.specs.NumberLaws.{FitsSevenDigits, ComparesLikeMonomials, TellsMonomialsApart, FitsPlaces, ComparesLikePlaces, TellsPlacesApart};

/// Each monomial has a number of its own, and the numbers stand in the order of the monomials.
pub fn monomial_numbers()
    ensures fits { FitsSevenDigits }
    ensures order { ComparesLikeMonomials }
    ensures apart { TellsMonomialsApart }
{}

/// Each place of a free module has a number of its own, and the numbers stand in the order of the places.
pub fn place_numbers()
    ensures fits { FitsPlaces }
    ensures order { ComparesLikePlaces }
    ensures apart { TellsPlacesApart }
{}
