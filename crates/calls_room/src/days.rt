//! The files of two small days, each with one transfer.

use crate::commands::Files;

/// A transfer from another bank's account to a customer's.
pub const FILES: Files = Files {
    tables: [
        b"HOMEUS33\nALPHDEFF\nCORRBEBB\n",
        b"EUR,2\n",
        b"DE,Y\nUS,N\n",
        b"VALPHEUR,V,ALPHDEFF,EUR,-10000000,90000000000,5000000\nCUST1,C,HOMEUS33,EUR,0,90000000000,0\nNCORREUR,N,CORRBEBB,EUR,-90000000000,90000000000,-5000000\n",
        b"EUR,ALPHDEFF,BOOK,,VALPHEUR,240101,791231\n",
        b"",
    ],
    messages: b"{1:F01HOMEUS33AXXX0001000007}{2:O1031200240603ALPHDEFFAXXX00010000012406031205N}{4:\r\n:20:REF1\r\n:23B:CRED\r\n:32A:240603EUR1234,5\r\n:50K:A PAYER\r\n:59:/CUST1\r\nA PAYEE\r\n:71A:SHA\r\n-}",
    received: b"",
};

/// What leaves for the transfer of `FILES`, as the first entry of a journal.
pub const SENT: &[u8] =
    b"{1:F01HOMEUS33AXXX0000000000}{2:I900ALPHDEFFXXXXN}{4:\r\n:20:P00000001K1\r\n:21:REF1\r\n:25:VALPHEUR\r\n:32A:240603EUR1234,50\r\n-}$";

/// A transfer between the accounts of two banks, of which a charge is taken.
pub const CHARGED: Files = Files {
    tables: [
        b"HOMEUS33\nALPHDEFF\nBETAFRPP\n",
        b"EUR,2\n",
        b"DE,Y\nFR,Y\nUS,N\n",
        b"VALPHEUR,V,ALPHDEFF,EUR,-10000000,90000000000,0\nVBETAEUR,V,BETAFRPP,EUR,0,90000000000,0\nFEEEUR,F,HOMEUS33,EUR,0,90000000000,0\n",
        b"EUR,BETAFRPP,BOOK,,VBETAEUR,240101,791231\n",
        b"EUR,500\n",
    ],
    messages: b"{1:F01HOMEUS33AXXX0001000007}{2:O1031200240603ALPHDEFFAXXX00010000012406031205N}{4:\r\n:20:REF1\r\n:23B:CRED\r\n:32A:240603EUR1234,5\r\n:50K:A PAYER\r\n:57A:BETAFRPP\r\n:59:/CUST9\r\nA PAYEE\r\n:71A:SHA\r\n-}",
    received: b"",
};
