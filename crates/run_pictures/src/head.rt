/// The head of a picture, with its width and height, each of which occurs twice, and its white background. The picture
/// shrinks to the width of a window or a sheet, and is printed in landscape.
pub(crate) const HEAD: &str =
    "<svg xmlns=\"http://www.w3.org/2000/svg\" width=\"$\" height=\"$\" viewBox=\"0 0 $ $\" style=\"max-width:100%;height:auto\" font-family=\"sans-serif\" font-size=\"11\">\n<style>@page{size:landscape}</style>\n<rect width=\"100%\" height=\"100%\" fill=\"#ffffff\"/>\n";
