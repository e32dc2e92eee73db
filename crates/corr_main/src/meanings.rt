//! The codes of a report and the tags of fields, in words, as docs/messages.md ("All codes", and the tables of fields) and
//! docs/operating.md ("What to do with a message") have them; docs/check_pages compares.

/// A line for each code with what it says of a message, and below it what to do; and for each tag the name of its field. A tag that ends
/// with `a` is that of each letter.
pub const MEANINGS: &[u8] = b"\
P01 block 1 isn't of its form
    the message is faulty: tell its sender the code, the tag and which it is
P02 block 1 has another version than 01
    often an acknowledgement ({1:F21): nothing
P03 block 2 isn't of its form
    the message is faulty: tell its sender the code, the tag and which it is
P04 block 3 isn't of its form
    the message is faulty: tell its sender the code, the tag and which it is
P05 block 4 isn't of its form, or isn't there
    the message is faulty: tell its sender the code, the tag and which it is
P06 block 5 isn't of its form, or something comes after the blocks
    the message is faulty: tell its sender the code, the tag and which it is
P07 the message goes the other way: it was sent, not received
    a message that was sent, not received: find out how it came into the file
P08 block 1 names another bank than the home bank
    a message for another bank: find out how it came into the file
P09 a training message (trailer TNG)
    a training message: nothing
P10 possibly sent before (trailer PDE)
    its sender may have sent it before: a person looks for its field 20 and asks the sender
P11 the type isn't known
    a type that this program doesn't read: handle it by hand
P12 the other bank (the sender; of a sent message the receiver) isn't in the table of banks
    if the bank or the currency is one of ours, add it to bics or ccys; else tell the sender
P13 the validation flag (119 of block 3) isn't as the type wants it
    a type that this program doesn't read: handle it by hand
P20 a line of block 4 is misplaced: it is empty, begins with -, begins with : and no field, or is the first and begins none
    the message is faulty: tell its sender the code, the tag and which it is
P21 a byte that no field may have (outside X)
    the message is faulty: tell its sender the code, the tag and which it is
P22 a field out of its order, one too many, or one that the type doesn't have
    the message is faulty: tell its sender the code, the tag and which it is
P23 a mandatory field is missing
    the message is faulty: tell its sender the code, the tag and which it is
P24 a content isn't of its form
    the message is faulty: tell its sender the code, the tag and which it is
P25 the bank of a party isn't in the table of banks
    if the bank or the currency is one of ours, add it to bics or ccys; else tell the sender
P26 the amount that is settled (32A) is zero
    the message is faulty: tell its sender the code, the tag and which it is
P27 an amount is 10^14 minor units or more
    an amount of 10^14 minor units (cents) or more, past the limit of this program: handle it by hand
P28 an instruction (23E) whose code isn't in the list
    the message is faulty: tell its sender the code, the tag and which it is
P30 no settlement instruction is in force for the bank that is paid, on the value date
    add an instruction for the bank in this currency to ssi, with the value date of 32A in its span
P31 no account between the sender and the home bank
    return it, or open an account between the sender and the home bank in this currency
P32 the Sender's Correspondent (53a) or the Receiver's Correspondent (54a) leads to no account: 53B names none of the sender, or 53A or \
54A a bank with which there is no nostro account
    53B names no account of the sender, or we have no nostro account (an account of ours with another bank) with the bank of 53A or 54A: \
ask the sender
P33 the Beneficiary Customer (59a) names no account, or none that a customer has with us in this currency
    field 59 names no customer of ours in this currency: return it, or ask the sender
P34 a cover for the home bank (58A)
    normal: a cover for the home bank is there to be reconciled, and not booked
P35 a bank that decides the accounts (53a, 54a, 56a, 57a or 58a) is named without its BIC
    a bank without its BIC: look at it by hand
P36 the account of the settlement instruction isn't there or doesn't fit
    the instruction names an account that isn't there, or isn't of that bank and currency: correct ssi
P37 a valid advice or page of a statement, which asks for no booking
    normal: an advice, or a page of a statement, which reconcile reads from received.fin
P38 debit and credit would be on one account
    debit and credit would fall on one account: ask the sender
P39 the charge that the home bank takes out of a transfer under SHA or BEN isn't below the amount settled (32A)
    the charge would take all of 32A, or more: return it, or take less in charges
P40 no account of fees for that charge, in the currency of 32A
    open an account of fees (kind F) in this currency, or take the currency out of charges
P41 another payment is entered under this message input reference; the same field 20 under another reference is neither this nor a repeat
    two messages under one message input reference: find out which is right
C02 the Receiver's Charges (71G) have another currency than the amount settled (32A)
    the message is faulty: tell its sender the code, the tag and which it is
C03 more decimals than the currency has
    the message is faulty: tell its sender the code, the tag and which it is
C06 a confirmation of a credit (910) names nobody who ordered it (50a, 52a)
    the message is faulty: tell its sender the code, the tag and which it is
C08 a precious metal in place of a currency in 32A
    the message is faulty: tell its sender the code, the tag and which it is
C27 the currencies of a statement's balances (60a, 62a, 64) differ in their first two letters
    the message is faulty: tell its sender the code, the tag and which it is
C68 in sequence B of a cover an Intermediary Institution (56a) without an Account With Institution (57a)
    the message is faulty: tell its sender the code, the tag and which it is
C81 in a transfer or in sequence A of a cover an Intermediary (56a) without an Account With Institution (57a)
    the message is faulty: tell its sender the code, the tag and which it is
D49 no Instructed Amount (33B) between two listed countries
    the message is faulty: tell its sender the code, the tag and which it is
D50 Receiver's Charges (71G), and each side bears its own (71A is SHA)
    the message is faulty: tell its sender the code, the tag and which it is
D51 Sender's or Receiver's Charges (71F, 71G) without the Instructed Amount (33B)
    the message is faulty: tell its sender the code, the tag and which it is
D75 the Exchange Rate (36) is missing, or is there without cause
    the message is faulty: tell its sender the code, the tag and which it is
D97 a text after an instruction (23E) that may have none
    the message is faulty: tell its sender the code, the tag and which it is
D98 an instruction (23E) out of its order
    the message is faulty: tell its sender the code, the tag and which it is
E01 the service level SPRI with an instruction (23E) that it may not have
    the message is faulty: tell its sender the code, the tag and which it is
E02 the service level SSTD or SPAY with an instruction (23E)
    the message is faulty: tell its sender the code, the tag and which it is
E03 a service level, and the Sender's Correspondent by name and address (53D)
    the message is faulty: tell its sender the code, the tag and which it is
E04 a service level, and the Sender's Correspondent by place (53B) without a party line
    the message is faulty: tell its sender the code, the tag and which it is
E05 a service level, and the Receiver's Correspondent without its BIC (54B, 54D)
    the message is faulty: tell its sender the code, the tag and which it is
E06 a Third Reimbursement Institution (55a) without both correspondents (53a, 54a)
    the message is faulty: tell its sender the code, the tag and which it is
E07 a service level, and the Third Reimbursement Institution without its BIC (55B, 55D)
    the message is faulty: tell its sender the code, the tag and which it is
E09 a service level, and the Account With Institution by place (57B), or by name and address (57D) without a party line
    the message is faulty: tell its sender the code, the tag and which it is
E10 a service level, and no account of the Beneficiary Customer (59a)
    the message is faulty: tell its sender the code, the tag and which it is
E13 Sender's Charges (71F), and the payer bears all charges (71A is OUR)
    the message is faulty: tell its sender the code, the tag and which it is
E15 the beneficiary bears all charges (71A is BEN): no Sender's Charges (71F), or Receiver's Charges (71G)
    the message is faulty: tell its sender the code, the tag and which it is
E16 the service level SPRI with an Intermediary Institution (56a)
    the message is faulty: tell its sender the code, the tag and which it is
E17 the service level SSTD or SPAY, and the Intermediary Institution by name and address (56D), or by an account that is no clearing \
code (56C)
    the message is faulty: tell its sender the code, the tag and which it is
E18 payment by cheque (23E is CHQB), and the Beneficiary Customer (59a) has an account
    the message is faulty: tell its sender the code, the tag and which it is
E44 tell the intermediary (23E is TELI or PHOI), and there is none (56a)
    the message is faulty: tell its sender the code, the tag and which it is
E45 tell the account with institution (23E is TELE or PHON), and there is none (57a)
    the message is faulty: tell its sender the code, the tag and which it is
E46 an instruction (23E) twice
    the message is faulty: tell its sender the code, the tag and which it is
T08 the Details of Charges (71A) are none of OUR, SHA and BEN
    the message is faulty: tell its sender the code, the tag and which it is
T26 a reference (20, or 21 of a cover) begins or ends with /, or has //
    the message is faulty: tell its sender the code, the tag and which it is
T36 the Bank Operation Code (23B) is none of its codes
    the message is faulty: tell its sender the code, the tag and which it is
T40 an amount or a rate isn't digits with one comma
    the message is faulty: tell its sender the code, the tag and which it is
T43 an amount or a rate is too long
    the message is faulty: tell its sender the code, the tag and which it is
T50 no day of the calendar
    the message is faulty: tell its sender the code, the tag and which it is
T52 a currency that isn't in the table of currencies
    if the bank or the currency is one of ours, add it to bics or ccys; else tell the sender
13C Time Indication
13D Date/Time Indication
20 Sender's Reference, or Transaction Reference Number
21 Related Reference
23B Bank Operation Code
23E Instruction Code
25 Account Identification
26T Transaction Type Code
28C Statement Number/Sequence Number
32A Value Date/Currency/Interbank Settled Amount, or Value Date, Currency Code, Amount
33B Currency/Instructed Amount
36 Exchange Rate
50a Ordering Customer
52a Ordering Institution
53a Sender's Correspondent
54a Receiver's Correspondent
55a Third Reimbursement Institution
56a Intermediary Institution (of a 103), Intermediary (of a 202 or 910)
57a Account With Institution
58a Beneficiary Institution (of a 202)
59a Beneficiary Customer
60a Opening Balance
61 Statement Line
62a Closing Balance
64 Closing Available Balance
70 Remittance Information
71A Details of Charges
71F Sender's Charges
71G Receiver's Charges
72 Sender to Receiver Information
77B Regulatory Reporting
86 Information to Account Owner";
