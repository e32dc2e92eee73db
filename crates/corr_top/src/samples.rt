//! The bank of a trial: its tables.

ghost use Rattle.std.specs.Prelude.{◌≡◌};
ghost use Rattle.corr_top.specs.Samples.{sample_accounts, sample_bics, sample_ccys, sample_countries, sample_day, sample_home, sample_ssi};

use corr_ids::{Bic, Day};

/// 3 June 2024, as days since 1970-01-01.
const DAY: Day = Day(19877);

/// The bank.
pub fn sample_home() -> Bic
    ensures { result ≡ sample_home }
{
    Bic {
        head: *b"HOMEUS33",
        branch: *b"XXX",
    }
}

/// The day: 3 June 2024.
pub fn sample_day() -> Day
    ensures { result ≡ sample_day }
{
    DAY
}

/// The banks that it knows.
pub fn sample_bics() -> &'static [u8]
    ensures { result.now ≡ sample_bics }
{
    b"HOMEUS33\nALPHDEFF\nBETAFRPP\nGAMMGB2L\nCORRBEBB\nDELTJPJT\n"
}

/// The currencies.
pub fn sample_ccys() -> &'static [u8]
    ensures { result.now ≡ sample_ccys }
{
    b"EUR,2\nUSD,2\nJPY,0\nKWD,3\n"
}

/// The countries.
pub fn sample_countries() -> &'static [u8]
    ensures { result.now ≡ sample_countries }
{
    b"DE,Y\nFR,Y\nBE,Y\nGB,N\nUS,N\nJP,N\n"
}

/// The accounts.
pub fn sample_accounts() -> &'static [u8]
    ensures { result.now ≡ sample_accounts }
{
    b"VALPHEUR,V,ALPHDEFF,EUR,-10000000,90000000000,5000000\nVBETAEUR,V,BETAFRPP,EUR,0,90000000000,1000000\nCUST1,C,HOMEUS33,EUR,0,90000000000,0\nNCORREUR,N,CORRBEBB,EUR,-90000000000,90000000000,-6000000\nVDELTJPY,V,DELTJPJT,JPY,0,90000000000,9000000\nNCORRJPY,N,CORRBEBB,JPY,-90000000000,90000000000,-9000000\nCUST2,C,HOMEUS33,JPY,0,90000000000,0\n"
}

/// The instructions.
pub fn sample_ssi() -> &'static [u8]
    ensures { result.now ≡ sample_ssi }
{
    b"EUR,BETAFRPP,BOOK,,VBETAEUR,240101,240701\nEUR,BETAFRPP,SERIAL,CORRBEBB,NCORREUR,240701,791231\nEUR,ALPHDEFF,BOOK,,VALPHEUR,240101,791231\nEUR,GAMMGB2L,COVER,CORRBEBB,NCORREUR,240101,791231\n"
}
